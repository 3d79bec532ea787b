//! Members and brackets of a JSON text that is being written.

ghost use Rattle.std.specs.Prelude.{◌≡◌, [], ◌∷◌, ◌++◌, OnOk};
ghost use Rattle.json.specs.Token.{key, string, boolean};
ghost use Rattle.json.specs.Reads.{token_of};
ghost use Rattle.json.specs.Print.{IsPrintable};
ghost use Rattle.am_silence_json.specs.Tokens.{Adds};

use json::{Token, Writer};
use std::alloc::AllocError;

/// Adds a token.
///
/// # Errors
///
/// Returns [`AllocError`] if memory runs out.
pub fn add(out: &mut Writer, token: Token<'_>) -> Result<(), AllocError>
    requires { IsPrintable (token_of token) }
    ensures { OnOk result (Adds out.old out.new (token_of token.entry ∷ [])) }
{
    out.token(token)?;
    Ok(())
}

/// Adds a member whose value is a text.
///
/// # Errors
///
/// Returns [`AllocError`] if memory runs out. The key may then remain.
pub fn add_text(out: &mut Writer, name: &str, text: &str) -> Result<(), AllocError>
    ensures { OnOk result (Adds out.old out.new (key name.now ∷ string text.now ∷ [])) }
{
    add(out, Token::Key(name))?;
    add(out, Token::String(text))?;
    Ok(())
}

/// Adds a member whose value is a boolean.
///
/// # Errors
///
/// Returns [`AllocError`] if memory runs out. The key may then remain.
pub fn add_truth(out: &mut Writer, name: &str, truth: bool) -> Result<(), AllocError>
    ensures { OnOk result (Adds out.old out.new (key name.now ∷ boolean truth ∷ [])) }
{
    add(out, Token::Key(name))?;
    add(out, Token::Bool(truth))?;
    Ok(())
}
