//! Numbers of decimal digits.
ghost use Rattle.std.specs.Prelude.{◌≡◌, ◌≤◌, ◌<◌, ◌^◌, length, IfSome};
ghost use Rattle.std.specs.Char.{is_ascii_digit};
ghost use Rattle.std.specs.List.{list_all};
ghost use Rattle.ocpp_types.specs.Digits.{number_of_digits};

/// The number that a text of 1 to `most` decimal digits is, and `None` for any other text. `most`
/// is at most 19, so that the number fits.
pub fn number_of_digits(text: &str, most: usize) -> Option<u64>
    requires { most ≤ 19 }
    ensures value { result ≡ number_of_digits most text.now }
    ensures within { IfSome result (λ n. n < 10 ^ length text.now) }
    ensures short { IfSome result (λ _. length text.now ≤ most) }
{
    if text.is_empty() || most < text.len() || !are_digits(text) {
        return None;
    }
    text.parse().ok()
}

fn are_digits(text: &str) -> bool
    ensures { result ≡ list_all is_ascii_digit text.now }
{
    text.bytes().all(|byte| byte.is_ascii_digit())
}
