// The forms of fields.
ghost use Rattle.std.specs.Prelude.{◌≡◌};
ghost use Rattle.scene_line.specs.Line.{next_form, hex_form};

#[derive(Clone, Copy)]
pub enum Form {
    Group,
    Since,
    TypeHash,
    Hash,
    TypeScript,
    Hex,
    Capacity,
    Digits,
}

impl Form {
    // The form of the field behind one of this form.
    pub fn next(self) -> Form
        ensures { result ≡ next_form self }
    {
        match self {
            Form::Group => Form::Since,
            Form::Since => Form::TypeHash,
            Form::TypeHash => Form::Hash,
            Form::Hash => Form::TypeScript,
            Form::TypeScript => Form::Hex,
            Form::Hex | Form::Capacity => Form::Capacity,
            Form::Digits => Form::Digits,
        }
    }

    // Whether fields of this form are hexadecimal.
    pub fn is_hex(self) -> bool
        ensures { result ≡ hex_form self }
    {
        matches!(
            self,
            Form::TypeHash | Form::Hash | Form::TypeScript | Form::Hex
        )
    }
}
