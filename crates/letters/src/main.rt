// Replays stored answers by the library `replaying`, as `replay` and `recall` do by functions of their own: a page that says a number back
// or asks the section, and a section that says which byte stands at a place. It shows what a program of that library writes, and tests it.
#![tactic(auto)]

ghost use Rattle.letters.specs.Letters.{form_in, byte_said, PageSays};

use replaying::question;
use replaying::sections::{Page, Sections};
use stored::asked::Asked;
use stored::form::Form;
use stored::numbers::Numbers;
use stored::texts::Places;

struct Letters;

impl Sections for Letters {
    ghost use Rattle.std.specs.Prelude.{◌≡◌};

    ghost forms = { λ section letter form. form ≡ form_in section letter };

    ghost says = { λ posed before reply. reply ≡ byte_said posed before };

    fn form(section: u32, letter: u8) -> Form {
        match (section, letter) {
            (1, b'b') => Form::new(0, 0, 0, Places::FromStart),
            _ => Form::unknown(),
        }
    }

    fn ask(asked: Asked<'_>, reply: Numbers) -> Numbers {
        match asked.text.get(asked.place) {
            Some(b) => reply.value(*b as usize),
            None => reply.and(2),
        }
    }
}

impl Page for Letters {
    ghost pages = { PageSays };

    fn reply(letter: u8, numbers: &[u32]) -> Numbers {
        match (letter, numbers) {
            (b'n', [number]) => Numbers::none().and(*number),
            (b'b', _) => question::reply::<Letters>(1, letter, false, numbers),
            _ => Numbers::none(),
        }
    }
}

fn main(rt: HostRuntime) {
    replaying::replay::<Letters>(&rt);
}
