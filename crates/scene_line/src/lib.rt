// One line of a scene: its kind, the forms of its fields, and how many bytes they have. Every function is total.
#![tactic(auto)]

mod form; // form.rt
mod field; // field.rt
mod fields; // fields.rt
mod kind; // kind.rt

pub use self::fields::check_fields;
pub use self::form::Form;
pub use self::kind::{Kind, line_kind};
