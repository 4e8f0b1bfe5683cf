// What a report makes of a task: it stays as it is, is gone, or is ready or told.
#[derive(Clone, Copy)]
pub enum Heard {
    Stays,
    Gone,
    Marked(bool),
}
