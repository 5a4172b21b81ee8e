// The kinds of lines.
ghost use Rattle.std.specs.Prelude.{◌≡◌, ◌∷◌, Some};
ghost use Rattle.text.specs.Text.{pieces, comma};
ghost use Rattle.scene_line.specs.Kind.{rank, field_count, first_form, kind_of, follows, line_kind};

use crate::form::Form;
use text::{COMMA, count};

// Numbered by their rank in the order.
#[derive(Clone, Copy, PartialEq, Eq, PartialOrd, Ord)]
pub enum Kind {
    Script = 1,
    Tx,
    Input,
    Output,
    Dep,
    Witness,
    Verdicts,
}

impl Kind {
    // The rank in the order of kinds.
    pub fn rank(self) -> usize
        ensures { result ≡ rank (Some self) }
    {
        self as usize
    }

    // How many fields follow the word.
    fn field_count(self) -> usize
        ensures { result ≡ field_count (Some self) }
    {
        match self {
            Kind::Script | Kind::Tx | Kind::Witness | Kind::Verdicts => 1,
            Kind::Input => 7,
            Kind::Output => 5,
            Kind::Dep => 4,
        }
    }

    // The form of the first field.
    pub fn first_form(self) -> Form
        ensures { result ≡ first_form (Some self) }
    {
        match self {
            Kind::Script | Kind::Witness => Form::Hex,
            Kind::Tx => Form::Hash,
            Kind::Input => Form::Group,
            Kind::Output | Kind::Dep => Form::TypeHash,
            Kind::Verdicts => Form::Digits,
        }
    }

    // Whether a line of this kind may follow one of rank last, 0 at the start.
    #[tactic(auto, unfolding(crate::specs::Kind::follows))]
    fn may_follow(self, last: usize) -> bool
        ensures { result ≡ follows last (rank (Some self)) }
    {
        if last < Kind::Tx.rank() {
            self.rank() == last + 1
        } else {
            Kind::Input <= self && last <= self.rank() && last != Kind::Verdicts.rank()
        }
    }
}

// The kind that a word names.
#[tactic(auto, unfolding(crate::specs::Kind::kind_of), using(octets::proofs::Same::same_pointwise))]
fn kind_of(word: &[u8]) -> Option<Kind>
    ensures { result ≡ kind_of word.now }
{
    if word == b"script".as_slice() {
        Some(Kind::Script)
    } else if word == b"tx".as_slice() {
        Some(Kind::Tx)
    } else if word == b"input".as_slice() {
        Some(Kind::Input)
    } else if word == b"output".as_slice() {
        Some(Kind::Output)
    } else if word == b"dep".as_slice() {
        Some(Kind::Dep)
    } else if word == b"witness".as_slice() {
        Some(Kind::Witness)
    } else if word == b"verdicts".as_slice() {
        Some(Kind::Verdicts)
    } else {
        None
    }
}

// The kind of a line with this word and these fields, none where its word, its rank or its count of fields is wrong.
#[tactic(auto, unfolding(crate::specs::Kind::line_kind))]
pub fn line_kind(word: &[u8], fields: &[u8], last: usize) -> Option<Kind>
    ensures { result ≡ line_kind last (word.now ∷ pieces comma fields.now) }
{
    let kind = kind_of(word)?;
    let fits = kind.may_follow(last) && count(fields, COMMA) == kind.field_count();
    fits.then_some(kind)
}
