//! The configuration of a member: the members of its cluster, and how long versions are kept and members wait.

ghost use Rattle.std.specs.Prelude.{◌≡◌, ◌≢◌, ℕ, ◌+◌, ◌*◌, ◌<◌, ◌≤◌, ◌↔◌, ◌⊎◌, ◌∷◌, Any, Contains, Some, None, length};
ghost use Rattle.std.specs.Prelude.{insert, position, slice_get, false, IsTrue, IfOk, OnOk, OnErr, IfSome, IsPermutation};
ghost use Rattle.std.specs.Option.{SomeIff};
ghost use Rattle.std.specs.Str.{bytes_eq};
ghost use Rattle.am_version_order.specs.Moments.{greatest};
ghost use Rattle.am_instance.specs.Configs.{AreInOrder, AreMembers, HasTwice, IsEmptyName, IsLongName, is_peer, place_named};
ghost use Rattle.am_gossip.specs.declared.refusals.ConfigError.TheVariants as errors;
ghost use Rattle.am_matcher.specs.declared.dialect.Dialect.TheVariants as dialects;
ghost use Rattle.am_wire.specs.declared.unknown.Unknown.TheVariants as unknowns;

use am_dedup::due;
use am_gossip::{ConfigError, MOST_NAME_BYTES, Place};
use am_matcher::Dialect;
use am_version_order::{Interval, Moment};
use am_wire::{Text, Unknown};
use std::alloc::{AllocError, Global};
use std::marker::Model;

/// Returns whether a name has no bytes.
fn is_empty(name: &Text) -> bool
    ensures { IsTrue result ↔ IsEmptyName name.now }
{
    name.as_str().is_empty()
}

/// Returns whether a name has more than 255 bytes.
fn is_long(name: &Text) -> bool
    ensures { IsTrue result ↔ IsLongName name.now }
{
    name.as_str().len() as u64 > MOST_NAME_BYTES
}

/// Returns whether any of the names has no bytes.
fn any_empty(names: &[Text]) -> bool
    ensures { IsTrue result ↔ Any IsEmptyName names.now }
{
    names.iter().any(is_empty)
}

/// Returns whether any of the names has more than 255 bytes.
fn any_long(names: &[Text]) -> bool
    ensures { IsTrue result ↔ Any IsLongName names.now }
{
    names.iter().any(is_long)
}

/// Returns whether any name, this member's own or a peer's, has no bytes.
fn has_empty(name: &Text, peers: &[Text]) -> bool
    ensures { IsTrue result ↔ Any IsEmptyName (name.now ∷ peers.now) }
{
    is_empty(name) || any_empty(peers)
}

/// Returns whether any name, this member's own or a peer's, has more than 255 bytes.
fn has_long(name: &Text, peers: &[Text]) -> bool
    ensures { IsTrue result ↔ Any IsLongName (name.now ∷ peers.now) }
{
    is_long(name) || any_long(peers)
}

/// Checks that each name has from 1 to 255 bytes.
fn check_names(name: &Text, peers: &[Text]) -> Result<(), ConfigError>
    ensures empty_name { (result ≡ Err errors.EmptyName) ↔ Any IsEmptyName (name.now ∷ peers.now) }
    ensures long_name { (result ≡ Err errors.LongName)
        ↔ (¬ Any IsEmptyName (name.now ∷ peers.now)) × Any IsLongName (name.now ∷ peers.now) }
    ensures fine { OnOk result ((¬ Any IsEmptyName (name.now ∷ peers.now)) × (¬ Any IsLongName (name.now ∷ peers.now))) }
    ensures refused { OnErr result (Any IsEmptyName (name.now ∷ peers.now) ⊎ Any IsLongName (name.now ∷ peers.now)) }
    ensures same_name { result ≢ Err errors.SameName }
{
    if has_empty(name, peers) {
        return Err(ConfigError::EmptyName);
    }
    if has_long(name, peers) {
        return Err(ConfigError::LongName);
    }
    Ok(())
}

/// Sorts names, and returns whether all of them differ. Nothing is allocated.
fn sort_names(names: &mut Vec<Text>) -> bool
    ensures same { IsPermutation names.old.items names.new.items }
    ensures order { IsTrue result → AreInOrder names.new.items }
    ensures twice { (result ≡ false) ↔ HasTwice names.old.items }
{
    names.sort_unstable();
    names.is_sorted_by(|one, next| one.cmp(next).is_lt())
}

/// Returns the place of a new name among sorted names, or `None` if they have it.
fn place_for(names: &[Text], name: &Text) -> Option<usize>
    requires { AreInOrder names.now }
    ensures place { IfSome result (λ place. place ≤ length names.now) }
    ensures order { IfSome result (λ place. AreInOrder (insert names.now place name.now)) }
    ensures there { (result ≡ None) ↔ Contains names.now name.now }
{
    names.binary_search(name).err()
}

/// Returns all names in order, and the place of this member's own name.
fn in_order(name: Text, peers: Vec<Text>) -> Result<(Vec<Text>, usize), ConfigError>
    ensures order { IfOk result (λ all. AreInOrder all.0.items) }
    ensures members { IfOk result (λ all. IsPermutation (name ∷ peers.items) all.0.items) }
    ensures within { IfOk result (λ all. all.1 < length all.0.items) }
    ensures own { IfOk result (λ all. slice_get all.0.items all.1 ≡ Some name) }
    ensures same_name { (result ≡ Err errors.SameName) ↔ HasTwice (name ∷ peers.items) }
    ensures empty_name { result ≢ Err errors.EmptyName }
    ensures long_name { result ≢ Err errors.LongName }
{
    let mut names = peers;
    if !sort_names(&mut names) {
        return Err(ConfigError::SameName);
    }
    let Some(place) = place_for(&names, &name) else {
        return Err(ConfigError::SameName);
    };
    names.insert(place, name)?;
    Ok((names, place))
}

/// Returns the place of the first text that is this name.
fn index_of(texts: &[Text], name: &str) -> Option<usize>
    ensures { result ≡ position (λ text. bytes_eq text name.now) texts.now }
{
    texts.iter().position(|text| text.as_str() == name)
}

/// The configuration of a member: the members of its cluster and its place among them, how long versions are kept after their
/// end, how long members wait for one another, the dialect of regular expressions in patterns, and the policy for fields of
/// versions that their readers don't know.
pub struct Config {
    alloc: Global,
    members: Vec<Text>,
    place: Place,
    retention: Interval,
    peer_timeout: Interval,
    dialect: Dialect,
    unknown: Unknown,
}

// With this the crates above cite one drop, and don't prove those of everything inside.
impl Drop for Config {
    fn drop(self) {
        let Config {
            alloc: _,
            members: _,
            place: _,
            retention: _,
            peer_timeout: _,
            dialect: _,
            unknown: _,
        } = self;
    }
}

impl Model for Config {
    ghost use Rattle.am_instance.specs.Configs.{AreMembers, Settings};

    ghost Value = { Settings };

    ghost view = { λ c. record { members = c.members.items; place = c.place; retention = c.retention; peer_timeout = c.peer_timeout; dialect = c.dialect; unknown = c.unknown } };

    ghost invariant = { λ c. AreMembers c.members.items c.place };
}

impl Config {
    /// Returns the configuration of a member with this name among these peers, with patterns of `regex` and without unknown
    /// fields. Members are known by their places, in the order of their names.
    ///
    /// # Errors
    ///
    /// The first [`ConfigError`] that applies, in their order.
    pub fn new(
        alloc: Global,
        name: Text,
        peers: Vec<Text>,
        retention: Interval,
        peer_timeout: Interval,
    ) -> Result<Config, ConfigError>
        // PROMISE: Members are in the order of their names, none twice.
        ensures order { IfOk result (λ config. AreInOrder config.members) }
        ensures members { IfOk result (λ config. IsPermutation (name ∷ peers.items) config.members) }
        ensures own { IfOk result (λ config. slice_get config.members config.place ≡ Some name) }
        ensures retention { IfOk result (λ config. config.retention ≡ retention) }
        ensures peer_timeout { IfOk result (λ config. config.peer_timeout ≡ peer_timeout) }
        ensures dialect { IfOk result (λ config. config.dialect ≡ dialects.Regex) }
        ensures unknown { IfOk result (λ config. config.unknown ≡ unknowns.Drop) }
        ensures empty_name { (result ≡ Err errors.EmptyName) ↔ Any IsEmptyName (name ∷ peers.items) }
        ensures long_name { (result ≡ Err errors.LongName)
            ↔ (¬ Any IsEmptyName (name ∷ peers.items)) × Any IsLongName (name ∷ peers.items) }
        ensures same_name { (result ≡ Err errors.SameName)
            ↔ (¬ Any IsEmptyName (name ∷ peers.items)) × (¬ Any IsLongName (name ∷ peers.items)) × HasTwice (name ∷ peers.items) }
    {
        check_names(&name, &peers)?;
        let (members, place) = in_order(name, peers)?;
        Ok(Config {
            alloc,
            members,
            place: place as u64,
            retention,
            peer_timeout,
            dialect: Dialect::Regex,
            unknown: Unknown::Drop,
        })
    }

    /// Returns a copy.
    ///
    /// # Errors
    ///
    /// [`AllocError`] if memory runs out.
    pub fn try_clone(&self) -> Result<Config, AllocError>
        ensures { IfOk result (λ copy. copy ≡ self.now) }
    {
        let mut members = Vec::with_capacity(self.alloc, self.members.len())?;
        for name in &self.members {
            members.push(name.try_clone(self.alloc)?)?;
        }
        Ok(Config {
            alloc: self.alloc,
            members,
            place: self.place,
            retention: self.retention,
            peer_timeout: self.peer_timeout,
            dialect: self.dialect,
            unknown: self.unknown,
        })
    }

    /// Returns the same configuration with patterns of this dialect. Nothing is allocated.
    pub fn with_dialect(self, dialect: Dialect) -> Config
        ensures { result ≡ record self { dialect = dialect } }
    {
        let mut config = self;
        config.dialect = dialect;
        config
    }

    /// Returns the same configuration with this policy for fields of versions that their readers don't know. Nothing is
    /// allocated.
    pub fn with_unknown(self, unknown: Unknown) -> Config
        ensures { result ≡ record self { unknown = unknown } }
    {
        let mut config = self;
        config.unknown = unknown;
        config
    }

    /// Returns the configuration of the member at a place of the same cluster.
    ///
    /// # Errors
    ///
    /// [`AllocError`] if memory runs out.
    pub fn for_member(&self, place: Place) -> Result<Config, AllocError>
        requires { place < length self.now.members }
        ensures { IfOk result (λ config. config ≡ record self.now { place = place }) }
    {
        let mut config = self.try_clone()?;
        config.place = place;
        Ok(config)
    }

    /// Returns the names of all members, in the order of their bytes: no two are the same, and each has 1 to 255 bytes.
    pub fn members(&self) -> &[Text]
        ensures names { result.now ≡ self.now.members }
        ensures sound { AreMembers self.now.members self.now.place }
    {
        self.members.as_slice()
    }

    /// Returns this member's own place.
    pub fn place(&self) -> Place
        ensures own { result ≡ self.now.place }
        ensures within { self.now.place < length self.now.members }
    {
        self.place
    }

    /// Returns the time for which versions are kept after their end, in nanoseconds.
    pub fn retention(&self) -> Interval
        ensures { result ≡ self.now.retention }
    {
        self.retention
    }

    /// Returns the dialect of regular expressions in patterns.
    pub fn dialect(&self) -> Dialect
        ensures { result ≡ self.now.dialect }
    {
        self.dialect
    }

    /// Returns the policy for fields of versions that their readers don't know.
    pub fn unknown(&self) -> Unknown
        ensures { result ≡ self.now.unknown }
    {
        self.unknown
    }

    /// Returns whether a place is that of another member.
    pub fn is_peer(&self, place: Place) -> bool
        ensures { result ≡ is_peer self.now place }
    {
        place < self.members.len() as u64 && place != self.place
    }

    /// Returns the place of the member with this name, which may be this one, or `None` if there is no such member. Nothing
    /// is allocated.
    pub fn place_named(&self, name: &str) -> Option<Place>
        ensures named { result ≡ place_named self.now name.now }
        ensures there { IfSome result (λ place. slice_get self.now.members place ≡ Some name.now) }
        ensures only { (place : ℕ) → slice_get self.now.members place ≡ Some name.now → result ≡ Some place }
        ensures nowhere { (result ≡ None) ↔ (¬ Contains self.now.members name.now) }
    {
        let index = index_of(self.members(), name)?;
        Some(index as u64)
    }

    /// Returns the moment when this member is due if it began to wait at `start`, or `None` if that is past
    /// [`Moment::GREATEST`]. Nothing is allocated.
    pub fn due_from(&self, start: Moment) -> Option<Moment>
        ensures { let due = start + self.now.place * self.now.peer_timeout in SomeIff result (due ≤ greatest) due }
    {
        due(start, self.place, self.peer_timeout)
    }
}
