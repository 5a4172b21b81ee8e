// The fields of one line.
ghost use Rattle.std.specs.Prelude.{◌≡◌, ◌≤◌, IfSome, length};
ghost use Rattle.text.specs.Text.{pieces, comma};
ghost use Rattle.scene_line.specs.Line.{fields_found};

use crate::field::{bare_after, field_ok, field_size};
use crate::form::Form;
use text::COMMA;

// How many bytes the fields have, the first one of form `first`, where each has its form.
pub fn check_fields(first: Form, fields: &[u8]) -> Option<usize>
    ensures value { result ≡ fields_found first (pieces comma fields.now) }
    ensures bytes_in_bounds { IfSome result (λ bytes. bytes ≤ length fields.now) }
{
    let mut form = first;
    let mut bare = true;
    let mut bytes = 0;
    for field in fields.split(|&byte| byte == COMMA) {
        if !field_ok(bare, form, field) {
            return None;
        }
        bytes += field_size(form, field);
        bare = bare_after(bare, form, field);
        form = form.next();
    }
    Some(bytes)
}
