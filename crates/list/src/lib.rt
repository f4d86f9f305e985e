// Reads access lists: fields, identities, entries, whole lists and the index of their entries.
#![tactic(auto)]

mod entries;
mod identities;
mod lists;
mod looks;
mod readings;

pub use entries::{Entry, entry_of, is_conditional, is_object};
pub use identities::{
    Placeholder, Sid, guid_at, identity, placeholder_of, same_guid, sid_in, sid_len_in,
};
pub use lists::{check, read};
pub use looks::{Look, look_at, placeholder_at};
pub use readings::Read;
