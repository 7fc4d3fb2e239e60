//! Lists of groups.
ghost use Rattle.std.specs.Prelude.{◌<◌, ◌^◌, length};

use type_kinds::{Atom, List};

/// One module of a group: its name, and where it stands among the sources and among the entries.
#[derive(Drop)]
pub struct GroupMember {
    pub name: Atom,
    pub source: Option<u32>,
    pub entry: Option<u32>,
}

/// Groups in ready order: a group calls only those before it. Members rise by name.
#[derive(Drop)]
pub struct GroupList {
    pub(crate) groups: List<List<GroupMember>>,
    pub ghost few: { length groups < 2 ^ 32 },
}
