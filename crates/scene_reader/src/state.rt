// What the reader holds between two lines.
ghost use Rattle.std.specs.Prelude.{◌≡◌, ◌≤◌, Some};
ghost use Rattle.scene_line.specs.Kind.{rank};
ghost use Rattle.protocol.specs.Limits.{kind_max_lines};
ghost use Rattle.scene_reader.specs.Reader.{seen_with};

use scene_line::Kind;

// The table's entry where the first line's record begins: before it stand the counts of the kinds, each at its rank.
pub(crate) const FIRST_RECORD_AT: usize = 8;

// The kind of the last line, how many lines of it were read, how many bytes of the store and how many entries of the table
// are used.
#[derive(Clone, Copy)]
pub(crate) struct State {
    pub last: Option<Kind>,
    pub seen: usize,
    pub used: usize,
    pub filled: usize,
}

impl State {
    // The rank of the last kind, 0 before the first line.
    pub fn last_rank(self) -> usize
        ensures { result ≡ rank self.last }
    {
        match self.last {
            Some(kind) => kind.rank(),
            None => 0,
        }
    }

    // How many lines of this kind were read, with this one.
    pub(crate) fn seen_with(self, kind: Kind) -> usize
        requires { self.seen ≤ kind_max_lines }
        ensures { result ≡ seen_with (rank self.last) self.seen (rank (Some kind)) }
    {
        if self.last == Some(kind) {
            self.seen + 1
        } else {
            1
        }
    }
}
