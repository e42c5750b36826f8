ghost use Rattle.std.specs.Prelude.{◌+◌, ◌^◌, ◌<◌, length};

use phoneme::Line;
use text_line::Scheme;

/// A line of a text that is still to be read.
#[derive(Drop)]
pub(crate) struct TextLine<'a> {
    /// The scheme in which it is written.
    pub scheme: Scheme,
    /// The line without its line end.
    pub bytes: &'a [u8],
    pub ghost fits: { length bytes.now < 2 ^ 32 },
}

/// Lines of a text, one after another, that one worker answers.
#[derive(Drop)]
pub(crate) struct Portion<'a> {
    /// The number of its first line in the text, counted from 1.
    pub number: u64,
    pub lines: &'a [TextLine<'a>],
    pub ghost fits: { number + length lines.now < 2 ^ 64 },
}

/// What a worker is to answer: a line, by its page, or a portion of a text, by the reply to each of its lines after the line's number.
#[derive(Drop)]
pub(crate) enum Asked<'a> {
    Line(&'a Line),
    Portion(Portion<'a>),
}
