/// How many transactions can be undone at most: records of undo and redo together.
pub const UNDO_DEPTH: usize = 50;
