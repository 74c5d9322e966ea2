//! The shares of the partition places: what the objects of each have beside their headers.

ghost use Rattle.std.specs.Prelude.{◌≡◌, ◌+◌, ◌<◌, IfOk, length, replicate, slice_set, true};
ghost use Rattle.std.specs.Prelude.{if◌then◌else◌};
ghost use Rattle.gh_parts.specs.PageMoves.{Follows, ShareChanges, SharesChange};
ghost use Rattle.gh_parts.specs.Shares.{AreShares, no_place, no_shares, body_at, place_at};
ghost use Rattle.gh_parts.specs.Shares.{is_space, place_in};
ghost use Rattle.gh_parts.specs.Shares.{with_body, with_body_in, with_cost_at, with_cost_in};
ghost use Rattle.gh_parts.specs.Shares.{with_place};

use crate::body::Body;
use crate::moves::follow;
use gh_base::{NoMemory, OBJECT_INDICES, ObjIndex, PARTITION_PLACES, PARTITIONS, Serial};
use std::alloc::Global;
use std::marker::Model;
use std::mem;

/// What an object has beside its header.
#[derive(Debug, Drop)]
pub struct Place {
    /// Units.
    pub cost: u16,
    pub body: Body,
}

/// What belongs to the objects of one partition place, by their places there.
#[derive(Debug, Drop)]
pub struct Share {
    places: Vec<Place>,
    // How many of the places have an address space.
    spaces: usize,
}

impl Model for Share {
    ghost use Rattle.std.specs.Prelude.{◌≡◌, List};
    ghost use Rattle.gh_parts.specs.declared.shares.Place.{Place};
    ghost use Rattle.gh_parts.specs.Shares.{spaces_in};

    ghost Value = { List Place };

    ghost view = { λ s. s.places.items };

    ghost invariant = { λ s. s.spaces ≡ spaces_in s.places.items };
}

/// The shares of all partition places. No call but `new` takes memory.
#[derive(Debug, Drop)]
pub struct Shares {
    shares: Vec<Share>,
}

impl Model for Shares {
    ghost use Rattle.std.specs.Prelude.{List};
    ghost use Rattle.gh_parts.specs.declared.shares.Place.{Place};
    ghost use Rattle.gh_parts.specs.Shares.{AreShares};

    ghost Value = { List (List Place) };

    ghost view = { λ s. s.shares.items };

    ghost invariant = { λ s. AreShares s.shares.items };
}

/// Whether it is the body of an address space.
fn is_space(body: &Body) -> bool
    ensures { result ≡ is_space body.now }
{
    match body {
        Body::Space(_) => true,
        _ => false,
    }
}

/// How many address spaces there are once one body is in the place of another.
fn recounted(spaces: usize, old: &Body, new: &Body) -> usize
    requires old { is_space old.now ≡ true → 0 < spaces }
    requires room { spaces < usize.MAX }
    ensures { result + (if is_space old.now then 1 else 0)
        ≡ spaces + (if is_space new.now then 1 else 0) }
{
    let others = if is_space(old) { spaces - 1 } else { spaces };
    if is_space(new) { others + 1 } else { others }
}

/// Address spaces at these places follow a run of pages that moved.
fn follow_places(places: &mut [Place], from: Serial, to: Serial, first: u16, count: u16)
    ensures { ShareChanges (Follows from.0 to first count) places.old places.new }
{
    for at in 0..places.len() {
        follow(&mut places[at].body, from, to, first, count);
    }
}

impl Share {
    /// So many places without an object, with all the room taken.
    fn new(alloc: Global, count: usize) -> Result<Share, NoMemory>
        ensures { IfOk result (λ share. share ≡ replicate count no_place) }
    {
        let mut places = Vec::with_capacity(alloc, count)?;
        for _ in 0..count {
            places.push(Place {
                cost: 0,
                body: Body::Nothing,
            })?;
        }
        Ok(Share { places, spaces: 0 })
    }

    /// Puts another body to a place, and answers the one that was there.
    fn exchange(&mut self, at: usize, body: Body) -> Body
        requires { at < length self.old }
        ensures before { result ≡ (place_in self.old at).body }
        ensures put { self.new ≡ with_body_in self.old at body }
    {
        self.spaces = recounted(self.spaces, &self.places[at].body, &body);
        mem::replace(&mut self.places[at].body, body)
    }

    /// The units that the object at a place costs.
    fn cost(&self, at: usize) -> u16
        requires { at < length self.now }
        ensures { result ≡ (place_in self.now at).cost }
    {
        self.places[at].cost
    }

    /// The body at a place.
    fn body(&self, at: usize) -> &Body
        requires { at < length self.now }
        ensures { result.now ≡ (place_in self.now at).body }
    {
        &self.places[at].body
    }

    /// Puts another place in the place of one.
    fn set_place(&mut self, at: usize, place: Place)
        requires { at < length self.old }
        ensures { self.new ≡ slice_set self.old at place }
    {
        self.spaces = recounted(self.spaces, &self.places[at].body, &place.body);
        self.places[at] = place;
    }

    /// The object at a place costs so many units from now on.
    fn set_cost(&mut self, at: usize, cost: u16)
        requires { at < length self.old }
        ensures { self.new ≡ with_cost_in self.old at cost }
    {
        self.places[at].cost = cost;
    }

    /// Its address spaces follow a run of pages that moved. Where it has none it looks at no place.
    fn follow(&mut self, from: Serial, to: Serial, first: u16, count: u16)
        ensures { ShareChanges (Follows from.0 to first count) self.old self.new }
    {
        if self.spaces > 0 {
            follow_places(self.places.as_mut_slice(), from, to, first, count);
        }
    }
}

/// Address spaces of these shares follow a run of pages that moved.
fn follow_shares(shares: &mut [Share], from: Serial, to: Serial, first: u16, count: u16)
    ensures { SharesChange (Follows from.0 to first count) shares.old shares.new }
{
    for at in 0..shares.len() {
        shares[at].follow(from, to, first, count);
    }
}

/// So many shares, each with so many places without an object.
fn new_shares(alloc: Global, count: usize, places: usize) -> Result<Vec<Share>, NoMemory>
    ensures { IfOk result (λ v. v.items ≡ replicate count (replicate places no_place)) }
{
    let mut shares = Vec::with_capacity(alloc, count)?;
    for _ in 0..count {
        shares.push(Share::new(alloc, places)?)?;
    }
    Ok(shares)
}

impl Shares {
    /// The shares of partition places without an object. It takes the room of all of them.
    pub fn new(alloc: Global) -> Result<Shares, NoMemory>
        ensures { IfOk result (λ shares. shares ≡ no_shares) }
    {
        let shares = new_shares(alloc, PARTITIONS, PARTITION_PLACES)?;
        Ok(Shares { shares })
    }

    /// Puts another body to an index, and answers the one that was there.
    fn exchange(&mut self, index: ObjIndex, body: Body) -> Body
        requires { index.0 < OBJECT_INDICES }
        ensures before { result ≡ body_at self.old index.0 }
        ensures put { self.new ≡ with_body self.old index.0 body }
    {
        let index = index.0 as usize;
        self.shares[index / PARTITION_PLACES].exchange(index % PARTITION_PLACES, body)
    }

    /// The units that the object at an index costs.
    pub fn cost(&self, index: ObjIndex) -> u16
        requires { index.0 < OBJECT_INDICES }
        ensures { result ≡ (place_at self.now index.0).cost }
    {
        let index = index.0 as usize;
        self.shares[index / PARTITION_PLACES].cost(index % PARTITION_PLACES)
    }

    /// The body at an index.
    pub fn body(&self, index: ObjIndex) -> &Body
        requires { index.0 < OBJECT_INDICES }
        ensures { result.now ≡ body_at self.now index.0 }
    {
        let index = index.0 as usize;
        self.shares[index / PARTITION_PLACES].body(index % PARTITION_PLACES)
    }

    /// Takes the body from an index, to be put back there changed.
    pub fn take(&mut self, index: ObjIndex) -> Body
        requires { index.0 < OBJECT_INDICES }
        ensures before { result ≡ body_at self.old index.0 }
        ensures taken { self.new ≡ with_body self.old index.0 Body.Nothing }
        ensures shares { AreShares self.old }
    {
        let _ = &self.shares;
        self.exchange(index, Body::Nothing)
    }

    /// Puts a body to an index.
    pub fn put(&mut self, index: ObjIndex, body: Body)
        requires { index.0 < OBJECT_INDICES }
        ensures { self.new ≡ with_body self.old index.0 body }
    {
        let _ = self.exchange(index, body);
    }

    /// Puts all that an object has beside its header to its index.
    pub fn set_place(&mut self, index: ObjIndex, place: Place)
        requires { index.0 < OBJECT_INDICES }
        ensures { self.new ≡ with_place self.old index.0 place }
    {
        let index = index.0 as usize;
        self.shares[index / PARTITION_PLACES].set_place(index % PARTITION_PLACES, place);
    }

    /// The object at an index costs so many units from now on.
    pub fn set_cost(&mut self, index: ObjIndex, cost: u16)
        requires { index.0 < OBJECT_INDICES }
        ensures { self.new ≡ with_cost_at self.old index.0 cost }
    {
        let index = index.0 as usize;
        self.shares[index / PARTITION_PLACES].set_cost(index % PARTITION_PLACES, cost);
    }

    /// All address spaces follow a run of pages that moved. It looks at the places of the partition
    /// places that have an address space, and at no other.
    pub fn follow_run(&mut self, from: Serial, to: Serial, first: u16, count: u16)
        ensures { SharesChange (Follows from.0 to first count) self.old self.new }
    {
        follow_shares(self.shares.as_mut_slice(), from, to, first, count);
    }
}
