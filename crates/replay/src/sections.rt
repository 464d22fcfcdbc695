// The sections whose questions have a text: the forms of these, and which section asks what.
use crate::{fences, frames, items, leaves, listings};
use block_marker::Marker;
use block_numbered::Numbered;
use stored::asked::Asked;
use stored::form::Form;
use stored::numbers::Numbers;
use stored::texts::Places;

// The form of a section's letter.
pub(crate) fn form(section: u32, letter: u8) -> Form {
    match section {
        1 => leaf_form(letter),
        2 => match letter {
            b'f' | b'r' => Form::new(0, 5, 0, Places::Whole),
            b's' => Form::new(0, 5, 0, Places::Beyond),
            _ => Form::unknown(),
        },
        3 | 4 => match letter {
            b'f' | b'r' => Form::new(0, 3, 1, Places::Whole),
            b's' => Form::new(1, 8, 1, Places::FromStart),
            _ => Form::unknown(),
        },
        5 => match letter {
            b'f' | b'r' => Form::new(1, 5, 0, Places::Whole),
            b's' => Form::new(4, 8, 2, Places::FromStart).free(0).free(1),
            _ => Form::unknown(),
        },
        9 => match letter {
            b'l' => Form::new(0, 0, 0, Places::Whole),
            _ => Form::unknown(),
        },
        _ => Form::unknown(),
    }
}

// Asks of a text, at a place where the question has one, and adds the answer.
pub(crate) fn ask(asked: Asked<'_>, reply: Numbers) -> Numbers {
    match asked.question.section {
        1 => leaves::ask(asked, reply),
        2 => fences::ask(asked, reply),
        3 => items::ask::<Marker>(asked, reply),
        4 => items::ask::<Numbered>(asked, reply),
        5 => frames::ask(asked, reply),
        9 => listings::ask(asked.text, reply),
        _ => reply,
    }
}

fn leaf_form(letter: u8) -> Form {
    match letter {
        b'e' | b'c' => Form::new(0, 1, 0, Places::Beyond),
        b'p' => Form::new(0, 2, 2, Places::Beyond),
        b'a' => Form::new(1, 4, 0, Places::FromStart),
        b'o' => Form::new(0, 1, 2, Places::FromStart),
        b'k' => Form::new(0, 5, 0, Places::FromStart),
        b's' => Form::new(0, 5, 0, Places::FromSecond),
        b'b' => Form::new(0, 0, 0, Places::Whole),
        b'r' => Form::new(0, 5, 0, Places::Whole),
        _ => Form::unknown(),
    }
}
