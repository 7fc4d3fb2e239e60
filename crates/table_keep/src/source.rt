//! Modules that are passed.
ghost use Rattle.core_scope.specs.Checked.{tree_of};
ghost use Rattle.table_keep.specs.Few.{HasAtMost};

use core_scope::{AsChecked, Checked, discard_checked};
use table_file::Digest;

/// An accepted module, the digest of its text, and how many bytes that has. It has at most as many definitions.
#[derive(Drop)]
pub struct Source {
    pub checked: Checked,
    pub digest: Digest,
    pub length: u64,
    pub ghost few: { HasAtMost (tree_of checked) length },
}

impl AsChecked for Source {
    ghost stands_for = { λ source. source.checked };

    fn checked(&self) -> &Checked {
        &self.checked
    }
}

/// Drops a source.
pub fn discard_source(source: Source) {
    let Source { checked, .. } = source;
    discard_checked(checked);
}
