// A line put down: its numbers into the table, its bytes into the store.
ghost use Rattle.std.specs.Prelude.{◌≡◌, ◌+◌, ◌<◌, ◌≤◌, Some, length};
ghost use Rattle.std.proofs.lemmas.List.Edits.{sets};
ghost use Rattle.text.specs.Text.{pieces, comma};
ghost use Rattle.scene_line.specs.Line.{field_bytes, line_bytes, line_entries};
ghost use Rattle.scene_line.specs.Kind.{rank, first_form};
ghost use Rattle.protocol.specs.Limits.{scene_max_length, kind_max_lines};
ghost use Rattle.scene_reader.specs.Reader.{line_put_as};
ghost use Rattle.scene_reader.specs.Room.{state_holding};

use crate::numbers::put_number;
use crate::state::State;
use scene_line::{Form, Kind};
use text::{COMMA, decode};

// Puts the bytes of a field into the store from at on, and says how many they are.
#[tactic(auto, unfolding(scene_line::specs::Line::field_bytes), using(text::proofs::HexLaws::hex_lengths))]
fn put_bytes(t: Form, f: &[u8], store: &mut [u8], at: usize) -> usize
    ensures value { result ≡ length (field_bytes t f.now) }
    ensures upper_bound { result ≤ length f.now }
    ensures store_after { store.new ≡ sets store.old at (field_bytes t f.now) }
{
    if t.is_hex() {
        decode(f, store, at);
        f.len() / 2
    } else {
        0
    }
}

// Puts the fields down, their bytes from used on and their numbers from filled on, and says where the numbers end.
fn put_fields(
    first: Form,
    fields: &[u8],
    store: &mut [u8],
    used: usize,
    table: &mut [u32],
    filled: usize,
) -> usize
    requires fields_len_bound { (length fields.now ≤ scene_max_length) × (used ≤ scene_max_length) }
    requires fields_in_bounds { filled + length (line_entries first (pieces comma fields.now)) ≤ length table.old }
    ensures value { result ≡ filled + length (line_entries first (pieces comma fields.now)) }
    ensures store_after { store.new ≡ sets store.old used (line_bytes first (pieces comma fields.now)) }
    ensures table_after { table.new ≡ sets table.old filled (line_entries first (pieces comma fields.now)) }
{
    let mut form = first;
    let mut at = used;
    let mut entry = filled;
    for field in fields.split(|&byte| byte == COMMA) {
        entry += put_number(form, field, table, entry);
        at += put_bytes(form, field, store, at);
        form = form.next();
    }
    entry
}

// Puts a line down whose fields have n bytes.
pub(crate) fn put_line(
    kind: Kind,
    fields: &[u8],
    state: State,
    n: usize,
    store: &mut [u8],
    table: &mut [u32],
) -> State
    requires n_value { n ≡ length (line_bytes (first_form (Some kind)) (pieces comma fields.now)) }
    requires n_in_bounds { state.used + n ≤ length store.old }
    requires fields_len_bound { (length fields.now ≤ scene_max_length) × (state.used ≤ scene_max_length) × (state.seen ≤ kind_max_lines) }
    requires k_in_bounds { (rank (Some kind) < length table.old) × (state.filled + 1 + length (line_entries (first_form (Some kind)) (pieces comma fields.now)) ≤ length table.old) }
    ensures { state_holding result store.new table.new
        ≡ line_put_as (state_holding state store.old table.old) (Some kind) (pieces comma fields.now) }
{
    let State { used, filled, .. } = state;
    let seen = state.seen_with(kind);
    table[kind.rank()] = seen as u32;
    table[filled] = used as u32;
    let end = put_fields(kind.first_form(), fields, store, used, table, filled + 1);
    State {
        last: Some(kind),
        seen,
        used: used + n,
        filled: end,
    }
}
