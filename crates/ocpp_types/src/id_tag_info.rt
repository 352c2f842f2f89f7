//! What is said of an id tag.

use crate::authorization_status::AuthorizationStatus;
use crate::moment::Moment;
use crate::text::Text;

/// What is said of an id tag (OCPP 1.6, type IdTagInfo).
#[derive(Clone, Drop)]
pub struct IdTagInfo {
    /// When the tag expires, or expired.
    pub expiry_date: Option<Moment>,
    /// The tag of the group that it belongs to.
    pub parent_id_tag: Option<Text>,
    pub status: AuthorizationStatus,
}
