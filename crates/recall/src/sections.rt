// The sections whose questions have a text: the forms of these, and which section asks what.
use crate::{covers, explains, files, page, regions, sheets};
use stored::asked::Asked;
use stored::form::Form;
use stored::numbers::Numbers;
use stored::texts::Places;

// The form of a section's letter.
pub(crate) fn form(section: u32, letter: u8) -> Form {
    match section {
        0 => Form::new(0, 0, 0, Places::FromStart),
        6 => match letter {
            b'r' | b'd' | b'n' | b'b' => Form::new(0, 4, 7, Places::Whole).free(3).free(6),
            b'c' => Form::new(1, 5, 7, Places::Whole).free(3).free(6),
            _ => Form::unknown(),
        },
        7 => match letter {
            b'v' | b'w' => Form::new(3, 3, 1, Places::Whole).free(0),
            _ => Form::unknown(),
        },
        8 => match letter {
            b'r' => Form::new(0, 3, 3, Places::Whole).free(2),
            b'c' => Form::new(2, 5, 3, Places::Whole).free(2),
            _ => Form::unknown(),
        },
        10 => match letter {
            b'w' => Form::new(1, 1, 1, Places::Beyond).free(0),
            b'b' => Form::new(0, 0, 0, Places::Beyond),
            _ => Form::unknown(),
        },
        11 => match letter {
            b'r' => Form::new(1, 1, 2, Places::Whole),
            b'm' => Form::new(1, 2, 0, Places::Whole),
            b'w' => Form::new(2, 2, 1, Places::Whole).free(0),
            _ => Form::unknown(),
        },
        _ => Form::unknown(),
    }
}

// Asks of a text, at a place where the question has one, and adds the answer.
pub(crate) fn ask(asked: Asked<'_>, reply: Numbers) -> Numbers {
    match asked.question.section {
        0 => page::member(asked.text, asked.place, reply),
        6 => regions::ask(asked, reply),
        7 => covers::ask(asked, reply),
        8 => sheets::ask(asked, reply),
        10 => explains::ask(asked, reply),
        11 => files::ask(asked, reply),
        _ => reply,
    }
}
