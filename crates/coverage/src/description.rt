use crate::domain::Domain;
use crate::kind::Kind;
use crate::name::Name;

/// All that is said of a coverage but its cells; none of it ever changes.
#[derive(Clone, Copy)]
pub struct Description {
    pub name: Name,
    pub domain: Domain,
    pub kind: Kind,
    pub receives: bool,
}
