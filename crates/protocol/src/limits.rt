// The limits of a scene and of what is lent with it.
pub const SCENE_MAX_LEN: usize = 1_048_576;

pub const TABLE_MIN_ENTRIES: usize = 2_048;

pub const KIND_MAX_LINES: usize = 64;

pub const DIGITS_MAX_COUNT: usize = 16;

pub const ANSWER_BUFFER_LEN: usize = 148_992;
