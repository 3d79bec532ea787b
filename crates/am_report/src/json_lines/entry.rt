//! Entries of the log.

ghost use Rattle.std.specs.Prelude.{[], ◌∷◌, OnOk, codes, map};
ghost use Rattle.json.specs.Token.{key, string};
ghost use Rattle.base64.specs.Engines.{standard};
ghost use Rattle.base64.specs.GeneralPurpose.{encode_of};
ghost use Rattle.am_report.specs.Texts.{moment_text};
ghost use Rattle.am_silence_json.specs.Tokens.{Adds, data_tokens, row_tokens};
ghost use Rattle.am_report.specs.Json.Values.{entry_data, hash_data, hashes_data, log_key_data, receiver_data};

use crate::json_lines::tokens::{add_hash, add_number};
use crate::moments::shown_moment;
use am_nflog::{HashIter, LogKey, MeshEntry};
use am_silence_json::tokens::{add, add_text};
use am_version_order::{Moment, Version};
use base64::engine::general_purpose::STANDARD;
use json::{Token, Writer};
use std::alloc::{AllocError, Global};

/// Adds the member that is the receiver of a key.
fn add_receiver(out: &mut Writer, log_key: &LogKey) -> Result<(), AllocError>
    ensures { OnOk result (Adds out.old out.new (key (codes "receiver") ∷ data_tokens (receiver_data log_key.now.receiver))) }
{
    add(out, Token::Key("receiver"))?;
    add(out, Token::BeginObject)?;
    add_text(out, "groupName", log_key.group_name())?;
    add_text(out, "integration", log_key.integration())?;
    add(out, Token::Key("idx"))?;
    add_number(out, log_key.idx())?;
    add(out, Token::EndObject)?;
    Ok(())
}

/// Adds the member that is the group key of a key, in base64.
fn add_group_key(alloc: Global, out: &mut Writer, log_key: &LogKey) -> Result<(), AllocError>
    ensures { OnOk result (Adds out.old out.new
        (key (codes "groupKey") ∷ string (encode_of standard log_key.now.group_key) ∷ [])) }
{
    let text = STANDARD.encode(alloc, log_key.group_key())?;
    add_text(out, "groupKey", text.as_str())?;
    Ok(())
}

/// Adds the members of a key.
fn add_key_members(alloc: Global, out: &mut Writer, log_key: &LogKey) -> Result<(), AllocError>
    ensures { OnOk result (Adds out.old out.new
        (key (codes "groupKey") ∷ string (encode_of standard log_key.now.group_key)
        ∷ key (codes "receiver") ∷ data_tokens (receiver_data log_key.now.receiver))) }
{
    add_group_key(alloc, out, log_key)?;
    add_receiver(out, log_key)?;
    Ok(())
}

/// Adds a key.
pub fn add_log_key(alloc: Global, out: &mut Writer, log_key: &LogKey) -> Result<(), AllocError>
    ensures { OnOk result (Adds out.old out.new (data_tokens (log_key_data log_key.now))) }
{
    add(out, Token::BeginObject)?;
    add_key_members(alloc, out, log_key)?;
    add(out, Token::EndObject)?;
    Ok(())
}

/// Adds a member that is a moment.
fn add_moment(out: &mut Writer, name: &str, moment: Moment) -> Result<(), AllocError>
    ensures { OnOk result (Adds out.old out.new (key name.now ∷ string (moment_text moment) ∷ [])) }
{
    let text = shown_moment(moment);
    add_text(out, name, text.as_str())?;
    Ok(())
}

/// Adds hashes, without brackets.
fn add_each_hash(out: &mut Writer, hashes: HashIter<'_>) -> Result<(), AllocError>
    ensures { OnOk result (Adds out.old out.new (row_tokens (map hash_data hashes.entry))) }
{
    for hash in hashes {
        add_hash(out, hash)?;
    }
    Ok(())
}

/// Adds a member that is a list of hashes.
fn add_hashes(out: &mut Writer, name: &str, hashes: HashIter<'_>) -> Result<(), AllocError>
    ensures { OnOk result (Adds out.old out.new (key name.now ∷ data_tokens (hashes_data hashes.entry))) }
{
    add(out, Token::Key(name))?;
    add(out, Token::BeginArray)?;
    add_each_hash(out, hashes)?;
    add(out, Token::EndArray)?;
    Ok(())
}

/// Adds an entry.
pub fn add_entry(alloc: Global, out: &mut Writer, entry: &MeshEntry) -> Result<(), AllocError>
    ensures { OnOk result (Adds out.old out.new (data_tokens (entry_data entry.now))) }
{
    add(out, Token::BeginObject)?;
    add_key_members(alloc, out, entry.key())?;
    add_moment(out, "timestamp", entry.timestamp())?;
    add_moment(out, "expiresAt", entry.expires_at())?;
    add_hashes(out, "firingAlerts", entry.firing_alerts())?;
    add_hashes(out, "resolvedAlerts", entry.resolved_alerts())?;
    add(out, Token::EndObject)?;
    Ok(())
}
