//! A member's status in JSON.

ghost use Rattle.std.specs.Prelude.{◌≡◌, ℕ, List, [], ◌∷◌, OnOk, IfOk, codes, decimal, map};
ghost use Rattle.json.specs.Token.{key, number};
ghost use Rattle.serde_json.specs.Data.{array};
ghost use Rattle.serde_json.specs.View.{items_of};
ghost use Rattle.serde_json.specs.Written.{compact_text};
ghost use Rattle.am_silence_json.specs.Tokens.{Adds, data_tokens, row_tokens};
ghost use Rattle.am_silence_json.specs.Written.{WritesMoment};
ghost use Rattle.am_api_status.specs.Replies.{told_bytes};
ghost use Rattle.am_api_status.specs.Statuses.{cluster_data, config_data, neighbor_data, peer_data, status_data, status_word, versions_data};
ghost use Rattle.am_api_status.specs.declared.replies.BodyFormat.TheVariants as formats;

use crate::replies::{BodyFormat, tell};
use am_silence_json::moments::write_moment;
use am_silence_json::tokens::{add, add_text};
use am_version_order::Moment;
use am_wire::Text;
use json::{Token, Writer};
use std::alloc::{AllocError, Global};

/// A member of a cluster, as it is shown.
#[derive(Drop)]
pub struct ClusterPeer {
    pub name: Text,
    /// The address at which the member listens.
    pub address: Text,
}

/// An Alertmanager beside the member, as it is shown.
#[derive(Drop)]
pub struct Neighbor {
    pub name: Text,
    /// The address at which the Alertmanager is asked.
    pub address: Text,
    /// The moment when everything it holds was last taken, or an empty text before that.
    pub last_heard: Text,
    /// The number of versions that it lacked then.
    pub lacked: u64,
    /// The number of times that silences weren't sent to it because of their hazards.
    pub withheld: u64,
}

/// A member's status.
#[derive(Drop)]
pub struct MemberStatus {
    /// The member's name among the members.
    pub name: Text,
    /// True if the member answers requests.
    pub is_ready: bool,
    /// All members, including this one.
    pub peers: Vec<ClusterPeer>,
    /// The Alertmanagers beside the member.
    pub alertmanagers: Vec<Neighbor>,
    /// The options that the member was started with.
    pub options: Text,
    /// The moment when the member was started.
    pub start: Moment,
    /// The version of the program.
    pub version: &'static str,
}

/// Adds a member of the cluster.
fn add_peer(out: &mut Writer, peer: &ClusterPeer) -> Result<(), AllocError>
    ensures { OnOk result (Adds out.old out.new (data_tokens (peer_data peer.now))) }
{
    add(out, Token::BeginObject)?;
    add_text(out, "address", peer.address.as_str())?;
    add_text(out, "name", peer.name.as_str())?;
    add(out, Token::EndObject)?;
    Ok(())
}

/// Adds members of the cluster, without brackets.
fn add_each_peer(out: &mut Writer, peers: &[ClusterPeer]) -> Result<(), AllocError>
    ensures { OnOk result (Adds out.old out.new (row_tokens (map peer_data peers.now))) }
{
    for peer in peers {
        add_peer(out, peer)?;
    }
    Ok(())
}

/// Adds the list of the members of the cluster.
fn add_peers(out: &mut Writer, peers: &[ClusterPeer]) -> Result<(), AllocError>
    ensures { OnOk result (Adds out.old out.new
        (key (codes "peers") ∷ data_tokens (array (items_of (map peer_data peers.now))))) }
{
    add(out, Token::Key("peers"))?;
    add(out, Token::BeginArray)?;
    add_each_peer(out, peers)?;
    add(out, Token::EndArray)?;
    Ok(())
}

/// Adds an object's member that is a number.
fn add_number(out: &mut Writer, name: &str, value: u64) -> Result<(), AllocError>
    ensures { OnOk result (Adds out.old out.new (key name.now ∷ number (decimal value) ∷ [])) }
{
    add(out, Token::Key(name))?;
    out.u64(value)?;
    Ok(())
}

/// Adds an Alertmanager beside the member.
fn add_neighbor(out: &mut Writer, neighbor: &Neighbor) -> Result<(), AllocError>
    ensures { OnOk result (Adds out.old out.new (data_tokens (neighbor_data neighbor.now))) }
{
    add(out, Token::BeginObject)?;
    add_text(out, "address", neighbor.address.as_str())?;
    add_number(out, "lacked", neighbor.lacked)?;
    add_text(out, "lastHeard", neighbor.last_heard.as_str())?;
    add_text(out, "name", neighbor.name.as_str())?;
    add_number(out, "withheld", neighbor.withheld)?;
    add(out, Token::EndObject)?;
    Ok(())
}

/// Adds Alertmanagers beside the member, without brackets.
fn add_each_neighbor(out: &mut Writer, neighbors: &[Neighbor]) -> Result<(), AllocError>
    ensures { OnOk result (Adds out.old out.new (row_tokens (map neighbor_data neighbors.now))) }
{
    for neighbor in neighbors {
        add_neighbor(out, neighbor)?;
    }
    Ok(())
}

/// Adds the list of the Alertmanagers beside the member.
fn add_neighbors(out: &mut Writer, neighbors: &[Neighbor]) -> Result<(), AllocError>
    ensures { OnOk result (Adds out.old out.new
        (key (codes "alertmanagers") ∷ data_tokens (array (items_of (map neighbor_data neighbors.now))))) }
{
    add(out, Token::Key("alertmanagers"))?;
    add(out, Token::BeginArray)?;
    add_each_neighbor(out, neighbors)?;
    add(out, Token::EndArray)?;
    Ok(())
}

/// Returns the word for whether the member answers requests.
const fn status_word(is_ready: bool) -> &'static str
    ensures { result.now ≡ status_word is_ready }
{
    if is_ready { "ready" } else { "settling" }
}

/// Adds the cluster's part of the status.
fn add_cluster(out: &mut Writer, status: &MemberStatus) -> Result<(), AllocError>
    ensures { OnOk result (Adds out.old out.new (key (codes "cluster") ∷ data_tokens (cluster_data status.now))) }
{
    add(out, Token::Key("cluster"))?;
    add(out, Token::BeginObject)?;
    add_text(out, "name", status.name.as_str())?;
    add_peers(out, status.peers.as_slice())?;
    add_text(out, "status", status_word(status.is_ready))?;
    add(out, Token::EndObject)?;
    Ok(())
}

/// Adds the options.
fn add_config(out: &mut Writer, options: &str) -> Result<(), AllocError>
    ensures { OnOk result (Adds out.old out.new (key (codes "config") ∷ data_tokens (config_data options.now))) }
{
    add(out, Token::Key("config"))?;
    add(out, Token::BeginObject)?;
    add_text(out, "original", options)?;
    add(out, Token::EndObject)?;
    Ok(())
}

/// Adds the versions that the program was built of.
fn add_versions(out: &mut Writer, version: &str) -> Result<(), AllocError>
    ensures { OnOk result (Adds out.old out.new (key (codes "versionInfo") ∷ data_tokens (versions_data version.now))) }
{
    add(out, Token::Key("versionInfo"))?;
    add(out, Token::BeginObject)?;
    add_text(out, "branch", "")?;
    add_text(out, "buildDate", "")?;
    add_text(out, "buildUser", "")?;
    add_text(out, "goVersion", "")?;
    add_text(out, "revision", "")?;
    add_text(out, "version", version)?;
    add(out, Token::EndObject)?;
    Ok(())
}

/// Adds a member's status; `start` is the text of the moment when it was started.
fn add_member_status(out: &mut Writer, status: &MemberStatus, start: &str) -> Result<(), AllocError>
    ensures { OnOk result (Adds out.old out.new (data_tokens (status_data status.now start.now))) }
{
    add(out, Token::BeginObject)?;
    add_neighbors(out, status.alertmanagers.as_slice())?;
    add_cluster(out, status)?;
    add_config(out, status.options.as_str())?;
    add_text(out, "uptime", start)?;
    add_versions(out, status.version)?;
    add(out, Token::EndObject)?;
    Ok(())
}

/// Returns a member's status in JSON; `start` is the text of the moment when it was started.
fn write_status(alloc: Global, status: &MemberStatus, start: &str) -> Result<Vec<u8>, AllocError>
    ensures { IfOk result (λ body. body.items ≡ compact_text (status_data status.now start.now)) }
{
    let mut writer = Writer::new(Vec::new(alloc));
    add_member_status(&mut writer, status, start)?;
    Ok(writer.into_inner())
}

/// Returns the reply with a member's status.
///
/// # Errors
///
/// [`AllocError`] if memory runs out.
pub fn status_reply(
    alloc: Global,
    status: &MemberStatus,
    is_bare: bool,
) -> Result<Vec<u8>, AllocError>
    // PROMISE: The status reply is the compact JSON of its value.
    ensures { IfOk result (λ bytes. (start : List ℕ) × WritesMoment status.now.start start
        × (bytes.items ≡ told_bytes formats.Json is_bare (compact_text (status_data status.now start)))) }
{
    let start = write_moment(status.start);
    let body = write_status(alloc, status, start.as_str())?;
    let bytes = tell(alloc, BodyFormat::Json, &body, is_bare)?;
    Ok(bytes)
}
