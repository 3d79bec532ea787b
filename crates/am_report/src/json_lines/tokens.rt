//! Numbers of a text of JSON that is being written.

ghost use Rattle.std.specs.Prelude.{◌≡◌, [], ◌∷◌, ◌++◌, IfOk, OnOk, decimal};
ghost use Rattle.json.specs.Print.{print};
ghost use Rattle.json.specs.Token.{number};
ghost use Rattle.am_silence_json.specs.Tokens.{Adds, data_tokens};
ghost use Rattle.am_report.specs.Json.Values.{hash_data};

use json::Writer;
use std::alloc::AllocError;

/// Adds a number.
pub fn add_number(out: &mut Writer, value: u32) -> Result<(), AllocError>
    ensures { OnOk result (Adds out.old out.new (number (decimal value) ∷ [])) }
{
    out.u64(u64::from(value))?;
    Ok(())
}

/// Adds a number of 64 bits, as a string.
pub fn add_hash(out: &mut Writer, hash: u64) -> Result<(), AllocError>
    ensures { OnOk result (Adds out.old out.new (data_tokens (hash_data hash))) }
{
    out.quoted_u64(hash)?;
    Ok(())
}

/// Returns the text of a value, ended by a line feed.
pub fn line_of(out: Writer) -> Result<Vec<u8>, AllocError>
    ensures { IfOk result (λ line. line.items ≡ out.before ++ print out.tokens ++ 10 ∷ []) }
{
    let mut line = out.into_inner();
    line.push(b'\n')?;
    Ok(line)
}
