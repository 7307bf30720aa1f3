// Lines of a number or a text.
ghost use Rattle.std.specs.Prelude.{◌≡◌, ◌++◌, IfOk, OnOk, string_bytes};
ghost use Rattle.generator_program.specs.Lines.{lines_by, number_line, text_line};

use std::alloc::{AllocError, Global};

// Adds a line of a word and a text.
fn push_text(text: &mut String, word: &str, value: &str) -> Result<(), AllocError>
    ensures { OnOk result
        (string_bytes text.new ≡ string_bytes text.old ++ text_line word.now value.now) }
{
    text.push_str(word)?;
    text.push_str(" ")?;
    text.push_str(value)?;
    text.push_str("\n")?;
    Ok(())
}

// Adds a line of a word and a number.
fn push_number(alloc: Global, text: &mut String, word: &str, number: u64) -> Result<(), AllocError>
    ensures { OnOk result
        (string_bytes text.new ≡ string_bytes text.old ++ number_line word.now number) }
{
    let value = format!(in alloc; "{number}")?;
    push_text(text, word, value.as_str())
}

/// The lines of these numbers and a sum.
pub fn lines_by(
    alloc: Global,
    modules: u64,
    redirects: u64,
    edges: u64,
    sum: &str,
) -> Result<String, AllocError>
    ensures { IfOk result (λ s. string_bytes s ≡ lines_by modules redirects edges sum.now) }
{
    let mut text = String::new(alloc);
    push_number(alloc, &mut text, "modules", modules)?;
    push_number(alloc, &mut text, "redirects", redirects)?;
    push_number(alloc, &mut text, "edges", edges)?;
    push_text(&mut text, "sha256", sum)?;
    Ok(text)
}
