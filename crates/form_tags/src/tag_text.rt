ghost use Rattle.std.specs.Prelude.{◌≡◌, ◌↔◌, MatchOption, IsSome, IfSome, IfOk, string_bytes};
ghost use Rattle.lexicon_definitions.specs.Tags.{IsOneOf, IsTagText, before_dot, genders, numbers, cases, tenses, voices, persons, lone_words};
ghost use Rattle.form_tags.specs.Dots.{IsDotless};
ghost use Rattle.form_tags.specs.TagTexts.{tag_text};

use super::{Case, Gender, Number, Person, Tag, Tense, Voice};
use phoneme::Memory;
use std::alloc::Global;

/// The tag that has this text, as its bytes, in this project's own notation: GENDER.NUMBER.CASE, as `m.sg.nom`,
/// TENSE.VOICE.PERSON.NUMBER, as `pr.ac.3.sg`, or one of `iic`, `pv` and `ind`. `None` where no tag has this text.
/// Takes no memory.
pub fn read_tag(text: &[u8]) -> Option<Tag>
    ensures some { IsSome result ↔ IsTagText text.now }
    ensures value { IfSome result (λ tag. tag_text tag ≡ text.now) }
{
    if let Some(tag) = read_placed(text) {
        return Some(tag);
    }
    let Some((first, rest)) = split_at_dot(text) else {
        return read_lone_word(text);
    };
    let (second, rest) = split_at_dot(rest)?;
    match split_at_dot(rest) {
        None => read_nominal(first, second, rest),
        Some((third, rest)) => read_verbal(first, second, third, rest),
    }
}

/// The text of a tag, in the notation of `read_tag`. Refused only for want of memory.
pub fn print_tag(alloc: Global, tag: &Tag) -> Result<String, Memory>
    ensures ok { IfOk result (λ text. string_bytes text ≡ tag_text tag.now) }
{
    Ok(tag.to_string(alloc)?)
}

/// The tag that has this text, where it is that of a nominal form: all of these have eight bytes and their dots at the
/// same two places, so that no dot is looked for.
fn read_placed(text: &[u8]) -> Option<Tag>
    ensures { IfSome result (λ tag. tag_text tag ≡ text.now) }
{
    let [_, b'.', _, _, b'.', _, _, _] = text else {
        return None;
    };
    read_nominal(&text[..1], &text[2..4], &text[5..])
}

fn split_at_dot(text: &[u8]) -> Option<(&[u8], &[u8])>
    ensures { MatchOption result (IsDotless text.now)
        (λ parts. (text.now ≡ before_dot parts.0.now parts.1.now) × IsDotless parts.0.now) }
{
    let dot = text.iter().position(|byte| *byte == b'.')?;
    Some((&text[..dot], &text[dot + 1..]))
}

fn read_lone_word(text: &[u8]) -> Option<Tag>
    ensures some { IsSome result ↔ IsOneOf lone_words text.now }
    ensures value { IfSome result (λ tag. tag_text tag ≡ text.now) }
{
    match text {
        b"iic" => Some(Tag::Iic),
        b"pv" => Some(Tag::Pv),
        b"ind" => Some(Tag::Ind),
        _ => None,
    }
}

fn read_nominal(gender: &[u8], number: &[u8], gcase: &[u8]) -> Option<Tag>
    ensures some { IsSome result
        ↔ (IsOneOf genders gender.now × IsOneOf numbers number.now × IsOneOf cases gcase.now) }
    ensures value { IfSome result
        (λ tag. tag_text tag ≡ before_dot gender.now (before_dot number.now gcase.now)) }
{
    Some(Tag::Nominal {
        gender: Gender::read(gender)?,
        number: Number::read(number)?,
        gcase: Case::read(gcase)?,
    })
}

fn read_verbal(tense: &[u8], voice: &[u8], person: &[u8], number: &[u8]) -> Option<Tag>
    ensures some { IsSome result
        ↔ (IsOneOf tenses tense.now × IsOneOf voices voice.now × IsOneOf persons person.now × IsOneOf numbers number.now) }
    ensures value { IfSome result
        (λ tag. tag_text tag ≡ before_dot tense.now (before_dot voice.now (before_dot person.now number.now))) }
{
    Some(Tag::Verbal {
        tense: Tense::read(tense)?,
        voice: Voice::read(voice)?,
        person: Person::read(person)?,
        number: Number::read(number)?,
    })
}
