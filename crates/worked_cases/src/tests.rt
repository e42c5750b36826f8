//! Calls of the libraries whose answers no run of the program prints, over words and grammars that are followed by hand.
ghost use Rattle.std.specs.Prelude.{◌≡◌, ◌<◌, ◌^◌, length};

use devanagari::read_devanagari;
use form_tags::{Analysis, from_delta, read_tag, to_delta};
use internal_sandhi::join;
use latin_schemes::{SpellError, SpellFault, print_slp1, print_velthuis, read_slp1, read_velthuis};
use more_schemes::{print_hk, print_iast, read_hk, read_iast};
use phase_automaton::{GrammarError, GrammarFault, read_grammar};
use phoneme::{Memory, Word};
use std::alloc::Global;
use std::cmp::Ordering;
use std::process::Abort;
use std::test::Fail;

/// The schemes of the tables of texts.
#[derive(Clone, Copy)]
enum Form {
    Slp1,
    Velthuis,
    Devanagari,
    Hk,
    Iast,
}

/// What the text spells.
fn spelled(alloc: Global, form: Form, text: &[u8]) -> Result<Word, SpellError>
    requires { length text.now < 2 ^ 28 }
{
    match form {
        Form::Slp1 => read_slp1(alloc, text),
        Form::Velthuis => read_velthuis(alloc, text),
        Form::Devanagari => read_devanagari(alloc, text),
        Form::Hk => read_hk(alloc, text),
        Form::Iast => read_iast(alloc, text),
    }
}

/// The spelling of the word, in Latin letters.
fn printed(alloc: Global, form: Form, word: &Word) -> Result<String, Memory> {
    match form {
        Form::Velthuis => print_velthuis(alloc, word),
        Form::Hk => print_hk(alloc, word),
        Form::Iast => print_iast(alloc, word),
        Form::Slp1 | Form::Devanagari => print_slp1(alloc, word),
    }
}

/// The word with these letters in SLP1.
fn word(rt: &impl Abort, alloc: Global, text: &[u8]) -> Result<Word, SpellError> {
    assert!(rt; text.len() < 100);
    read_slp1(alloc, text)
}

/// A text, the codes of the letters that it spells, and how the word is printed.
static SPELLINGS: [(Form, &[u8], &[u8], &[u8]); 12] = [
    (Form::Velthuis, b"a_i", &[1, 3], b"a_i"),
    (Form::Velthuis, b"ai", &[11], b"ai"),
    (Form::Velthuis, b"k_h", &[17, 49], b"k_h"),
    (Form::Velthuis, b".r_r", &[7, 43], b".r_r"),
    (Form::Velthuis, b".rr", &[8], b".rr"),
    (
        Form::Velthuis,
        b"gacchati",
        &[19, 1, 22, 23, 1, 32, 3],
        b"gacchati",
    ),
    (Form::Hk, b"lR", &[9], b"lR"),
    (Form::Hk, b"l_R", &[44, 7], b"l_R"),
    (Form::Hk, b"RR", &[8], b"RR"),
    (Form::Hk, b"R_R", &[7, 7], b"R_R"),
    // a and the mark U+0304; U+1E47 is one character
    (Form::Iast, b"a\xcc\x84", &[2], b"\xc4\x81"),
    (
        Form::Iast,
        b"nare\xe1\xb9\x87a",
        &[36, 1, 43, 10, 31, 1],
        b"nare\xe1\xb9\x87a",
    ),
];

/// A text and its fault.
static FAULTS: [(Form, &[u8], SpellFault); 4] = [
    (Form::Velthuis, b"a_", SpellFault::NotLetter { at: 1 }),
    (Form::Velthuis, b"\"x", SpellFault::NotLetter { at: 0 }),
    (Form::Slp1, b"c?", SpellFault::NotLetter { at: 1 }),
    // U+0947, the sign of e
    (
        Form::Devanagari,
        b"\xe0\xa5\x87",
        SpellFault::LoneSign { at: 0 },
    ),
];

#[test]
fn texts_spell_letters(rt: HostRuntime) -> Result<(), Fail> {
    let alloc = rt.alloc();
    for (form, text, codes, again) in &SPELLINGS {
        assert!(rt; text.len() < 100);
        let word = spelled(alloc, *form, text)?;
        let letters = word.as_slice().iter().map(|letter| letter.code());
        assert!(rt; letters.eq(codes.iter().copied()));
        let text = printed(alloc, *form, &word)?;
        assert_eq!(rt; text.as_bytes(), *again);
    }
    for (form, text, fault) in &FAULTS {
        assert!(rt; text.len() < 100);
        let found = spelled(alloc, *form, text).err();
        assert_eq!(rt; found, Some(SpellError::Fault(*fault)));
    }
    Ok(())
}

/// A front, an ending, and what they are when joined.
static JOINED: [(&[u8], &[u8], &[u8]); 7] = [
    (b"nar", b"ena", b"nareRa"),
    (b"rAm", b"AnAm", b"rAmARAm"),
    (b"arjun", b"ena", b"arjunena"),
    (b"rAm", b"An", b"rAmAn"),
    (b"agn", b"isu", b"agnizu"),
    (b"kusum", b"ena", b"kusumena"),
    (b"iz", b"ta", b"izwa"),
];

#[test]
fn forms_are_joined_and_cut(rt: HostRuntime) -> Result<(), Fail> {
    let alloc = rt.alloc();
    for (front, ending, result) in &JOINED {
        let front = word(&rt, alloc, front)?;
        let ending = word(&rt, alloc, ending)?;
        let joined = join(alloc, &front, &ending)?;
        assert_eq!(rt; print_slp1(alloc, &joined)?.as_bytes(), *result);
    }
    let form = word(&rt, alloc, b"nareRa")?;
    let analysis = Analysis {
        stem: word(&rt, alloc, b"nara")?,
        tag: read_tag(b"m.sg.ins").expect(&rt, "a tag"),
    };
    assert!(rt; read_tag(b"m.sg").is_none());
    assert!(rt; form.as_slice().len() < 100);
    let delta = to_delta(alloc, form.as_slice(), &analysis)?;
    assert_eq!(rt; delta.cut, 3);
    assert_eq!(rt; print_slp1(alloc, &delta.append)?.as_str(), "a");
    let back = from_delta(alloc, form.as_slice(), &delta)?;
    assert_eq!(rt; back.compare(&analysis), Ordering::Equal);
    Ok(())
}

/// A part so many times, what comes after it, and the first fault of this grammar over the phase `ind` alone.
static GRAMMARS: [(&[u8], usize, &[u8], Option<GrammarFault>); 5] = [
    (b"", 0, b"ind )", Some(GrammarFault::Syntax { at: 4 })),
    (
        b"",
        0,
        b"ind | foo",
        Some(GrammarFault::UnknownPhase { at: 6 }),
    ),
    (b"", 0, b"", Some(GrammarFault::Syntax { at: 0 })),
    (b"ind ", 60, b"ind", Some(GrammarFault::Places)),
    (b"", 0, b"(ind | ind)+", None),
];

fn fault_of(alloc: Global, text: &[u8], names: &[String]) -> Result<Option<GrammarFault>, Fail>
    requires { length names.now ≡ 1 }
{
    match read_grammar(alloc, text, names) {
        Ok(_) => Ok(None),
        Err(GrammarError::Fault(fault)) => Ok(Some(fault)),
        Err(GrammarError::Memory) => Err("out of memory".into()),
    }
}

#[test]
fn grammars_have_faults(rt: HostRuntime) -> Result<(), Fail> {
    let alloc = rt.alloc();
    let mut names = Vec::new(alloc);
    names.push(String::from_str(alloc, "ind")?)?;
    for (part, count, last, fault) in &GRAMMARS {
        let mut text = Vec::new(alloc);
        for _ in 0..*count {
            text.extend_from_slice(part)?;
        }
        text.extend_from_slice(last)?;
        assert!(rt; names.len() == 1);
        assert_eq!(rt; fault_of(alloc, text.as_slice(), names.as_slice())?, *fault);
    }
    Ok(())
}
