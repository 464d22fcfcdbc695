// What a program that replays stored answers has of its own: its sections.
ghost use Rattle.std.specs.Prelude.{ℕ, List};
ghost use Rattle.stored.specs.declared.form.Form.{Form};
ghost use Rattle.stored.specs.declared.numbers.Numbers.{Numbers};
ghost use Rattle.replaying.specs.Replying.{Posed, posed};

use stored::asked::Asked;
use stored::form::Form;
use stored::numbers::Numbers;

// The sections whose questions have a text.
pub trait Sections {
    // Which forms a letter of a section has, and which numbers an asked question adds to a reply. A program that proves neither leaves them
    // out, and then each is any.
    ghost forms: { ℕ → ℕ → Form → Type 0 } = { λ _ _ _. Unit {0} };

    ghost says: { Posed → Numbers → Numbers → Type 0 } = { λ _ _ _. Unit {0} };

    // The form of a section's letter.
    fn form(section: u32, letter: u8) -> Form
        ensures { forms section letter result };

    // Asks of a text, at a place where the question has one, and adds the answer.
    fn ask(asked: Asked<'_>, reply: Numbers) -> Numbers
        ensures { says (posed asked.entry) reply result };
}

// Section 0, which asks questions of the others too.
pub trait Page: Sections {
    // Which numbers answer a letter of this section, or any.
    ghost pages: { ℕ → List ℕ → Numbers → Type 0 } = { λ _ _ _. Unit {0} };

    // What ours answer; no number where that is no question of this section.
    fn reply(letter: u8, numbers: &[u32]) -> Numbers
        ensures { pages letter numbers.now result };
}
