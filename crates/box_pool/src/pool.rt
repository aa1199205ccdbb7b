//! The pool.

ghost use Rattle.std.specs.Prelude.{◌≡◌, ◌<◌, ◌≤◌, ◌+◌, List, [], ◌++◌, IfOk, IfSome, MatchOption};
ghost use Rattle.grid_model.specs.Boxes.{grid_box};
ghost use Rattle.box_pool.specs.Lists.{list_at, AllEmpty, IsPushed, IsPopped, IsGreatest};
ghost use Rattle.box_pool.specs.Hulls.{IsHullOf, IsHullOfAll};

use crate::block::{Base, Cells, Deed, allocate, deallocate};
use crate::hulls::around;
use crate::item::{Item, Node};
use crate::links::{fill, relink};
use crate::mask::without;
use grid_model::{Box3, NoMemory};
use std::alloc::Global;
use std::marker::Model;
use std_alloc::room::may_hold;

/// How many queues there are.
pub const QUEUES: usize = 48;

/// How many items a pool may be made for.
pub const MAX_NODES: u32 = 200_001;

/// Items in 48 queues. To put one in and to take one out costs the same, however many wait.
pub struct Pool {
    base: Base<Node>,
    cells: Cells<Node>,
    deed: Deed<Node, Global>,
    alloc: Global,
    nodes: u32,
    spare: u32,
    free: u32,
    // No node from this one on was written yet.
    used: u32,
    mask: u64,
    firsts: [u32; QUEUES],
    lasts: [u32; QUEUES],
    counts: [u32; QUEUES],
}

impl Model for Pool {
    ghost use Rattle.std.specs.Prelude.{◌≡◌, length};
    ghost use Rattle.box_pool.specs.Chains.{lists_from, IsLinked};
    ghost use Rattle.box_pool.specs.Lists.{PoolLists};
    ghost use Rattle.box_pool.specs.Masks.{mask_of};
    ghost use Rattle.box_pool.specs.Blocks.{IsBlock};

    ghost Value = { PoolLists };

    ghost view = { λ p. record {
      lists = lists_from p.cells.slots p.firsts p.counts;
      spare = p.spare;
    } };

    ghost invariant = { λ p. IsBlock p.base p.cells p.deed p.alloc p.nodes
        × IsLinked p.cells.slots p.firsts p.lasts p.counts p.free p.spare p.used p.nodes
        × (p.mask ≡ mask_of p.counts) × ((length p.firsts ≡ 48) × (length p.counts ≡ 48)) };
}

impl Pool {
    /// A pool without items, with room for so many. All its memory is taken here, and none of it is
    /// written: a node is when an item first comes into it.
    pub fn with_nodes(alloc: Global, n: u32) -> Result<Pool, NoMemory>
        requires some { 1 ≤ n }
        requires few { n ≤ MAX_NODES }
        ensures empty { IfOk result (λ pool. AllEmpty pool.lists) }
        ensures spare { IfOk result (λ pool. pool.spare ≡ n) }
    {
        if !may_hold::<Node>(n as usize) {
            return Err(NoMemory);
        }
        let (base, cells, deed) = allocate::<Node, Global>(&alloc, n as usize)?;
        Ok(Pool {
            base,
            cells,
            deed,
            alloc,
            nodes: n,
            spare: n,
            free: 0,
            used: 0,
            mask: 0,
            firsts: [0; QUEUES],
            lasts: [0; QUEUES],
            counts: [0; QUEUES],
        })
    }

    /// Puts an item last into a queue. A spare node becomes its node.
    pub fn push(&mut self, bucket: u8, item: Item)
        requires bucket { bucket < QUEUES }
        requires room { 0 < self.old.spare }
        ensures pushed { IsPushed self.old.lists bucket item self.new.lists }
        ensures spare { self.new.spare + 1 ≡ self.old.spare }
    {
        let queue = bucket as usize;
        let place = self.free;
        self.free = fill(&mut self.cells, self.base, place, self.used, item);
        self.used = self.used.max(place + 1);
        self.spare -= 1;
        let count = self.counts[queue];
        let last = self.lasts[queue];
        self.counts[queue] = count + 1;
        self.lasts[queue] = place;
        if count == 0 {
            self.firsts[queue] = place;
            self.mask += 1 << bucket;
        } else {
            relink(&mut self.cells, self.base, last, place);
        }
    }

    /// Takes the first item of a queue, whose node is then spare. None where the queue is empty.
    pub fn pop(&mut self, bucket: u8) -> Option<Item>
        requires { bucket < QUEUES }
        ensures popped { MatchOption result (list_at self.old.lists bucket ≡ [])
            (λ item. IsPopped self.old.lists bucket item self.new.lists) }
        ensures spare { MatchOption result (self.new ≡ self.old)
            (λ item. self.new.spare ≡ self.old.spare + 1) }
    {
        let queue = bucket as usize;
        if self.counts[queue] == 0 {
            return None;
        }
        let place = self.firsts[queue];
        let was = relink(&mut self.cells, self.base, place, self.free);
        self.firsts[queue] = was.next;
        let left = self.counts[queue] - 1;
        self.counts[queue] = left;
        self.mask = without(self.mask, bucket, left);
        self.free = place;
        self.spare += 1;
        Some(was.item)
    }

    /// The greatest queue that has an item. None where all queues are empty.
    pub fn greatest(&self) -> Option<u8>
        ensures greatest { MatchOption result (AllEmpty self.now.lists)
            (λ bucket. IsGreatest self.now.lists bucket) }
        ensures small { IfSome result (λ bucket. bucket < QUEUES) }
    {
        if self.mask == 0 {
            return None;
        }
        Some(self.mask.ilog2() as u8)
    }

    /// How many items can still be put in.
    pub fn spare(&self) -> u32
        ensures { result ≡ self.now.spare }
    {
        self.spare
    }

    /// The least box round all items. None where all queues are empty.
    pub fn hull(&self) -> Option<Box3>
        ensures { MatchOption result (AllEmpty self.now.lists)
            (λ hull. IsHullOfAll self.now.lists (grid_box hull)) }
    {
        if self.mask == 0 {
            return None;
        }
        let mut hull: Option<Box3> = None;
        for bucket in 0..QUEUES {
            hull = self.hull_with(bucket, hull);
        }
        hull
    }

    /// The hull of a queue's items and of items whose hull is known.
    fn hull_with(&self, bucket: usize, known: Option<Box3>) -> Option<Box3>
        requires { bucket < QUEUES }
        ensures { (items : List Item) → IsHullOf items known
            → IsHullOf (items ++ list_at self.now.lists bucket) result }
    {
        let mut hull = known;
        let mut place = self.firsts[bucket];
        for _ in 0..self.counts[bucket] {
            let node = self.cells.get(self.base, place as usize);
            hull = Some(around(hull, &node.item));
            place = node.next;
        }
        hull
    }
}

impl Drop for Pool {
    /// Gives the block back. Items have nothing to drop.
    fn drop(self) {
        let Pool {
            base,
            cells,
            deed,
            alloc,
            nodes,
            spare: _,
            free: _,
            used: _,
            mask: _,
            firsts: _,
            lasts: _,
            counts: _,
        } = self;
        deallocate(&alloc, base, nodes as usize, cells, deed);
    }
}
