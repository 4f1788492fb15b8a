// What a payload holds.
ghost use Rattle.std.specs.Prelude.{◌*◌, ◌≤◌, length};

use crate::colors::Colors;
use crate::source::Source;

// So many ids below the colour count, that are written from bit place `at` of a payload on.
#[derive(Clone, Copy)]
pub(crate) struct Body<'a> {
    pub(crate) source: Source<'a>,
    pub(crate) colors: Colors,
    pub(crate) count: usize,
    pub(crate) at: usize,
    ghost place: { at ≤ 8 * length source.bytes.now },
}
