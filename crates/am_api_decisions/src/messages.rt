//! The bodies of requests.

ghost use Rattle.std.specs.Prelude.{IfOk, IfErr};
ghost use Rattle.am_api_decisions.specs.Bodies.{IsMessageFault, IsMessageIn, IsNoticeFault, IsNoticeIn};

use crate::cause::DecisionCause;
use crate::error::MessageError;
use crate::message::{WebhookMessage, read_message};
use crate::notice::{Notice, read_notice};
use std::alloc::Global;

/// Reads the message in a body.
///
/// # Errors
///
/// [`DecisionCause::BadJson`], [`DecisionCause::BadMessage`] of the first key that is at fault, [`DecisionCause::Truncated`], or [`DecisionCause::Memory`].
pub fn message_in(alloc: Global, body: &[u8]) -> Result<WebhookMessage, DecisionCause>
    ensures read { IfOk result (IsMessageIn body.now) }
    ensures refused { IfErr result (IsMessageFault body.now) }
{
    match read_message(alloc, body) {
        Ok(message) => Ok(message),
        Err(MessageError::BadJson) => Err(DecisionCause::BadJson),
        Err(MessageError::BadMessage(key)) => Err(DecisionCause::BadMessage(key)),
        Err(MessageError::Truncated) => Err(DecisionCause::Truncated),
        Err(MessageError::Memory) => Err(DecisionCause::Memory),
    }
}

/// Reads the notice in a body.
///
/// # Errors
///
/// The same as those of [`message_in`], except for [`DecisionCause::Truncated`].
pub fn notice_in(alloc: Global, body: &[u8]) -> Result<Notice, DecisionCause>
    ensures read { IfOk result (IsNoticeIn body.now) }
    ensures refused { IfErr result (IsNoticeFault body.now) }
{
    match read_notice(alloc, body) {
        Ok(notice) => Ok(notice),
        Err(MessageError::BadJson) => Err(DecisionCause::BadJson),
        Err(MessageError::BadMessage(key)) => Err(DecisionCause::BadMessage(key)),
        Err(MessageError::Truncated) => Err(DecisionCause::Truncated),
        Err(MessageError::Memory) => Err(DecisionCause::Memory),
    }
}
