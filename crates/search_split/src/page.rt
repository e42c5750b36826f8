/// A page: the text of each answer after its number, counted from 1, with no line end, and whether an answer is left.
#[derive(Drop)]
pub struct Page {
    pub answers: Vec<String>,
    pub more: bool,
}
