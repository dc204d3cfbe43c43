ghost use Rattle.std.specs.Prelude.{◌≡◌, ◌≢◌, ◌+◌, ◌^◌, ◌<◌, ◌≤◌, ◌↔◌, length, None, IfSome};
ghost use Rattle.std.specs.Prelude.{IfNone, IsNone, IsOk, OnOk, OnErr};
ghost use Rattle.std.specs.FinMap as map;
ghost use Rattle.word_rows.specs.Words.{full_words as full};
ghost use Rattle.row_pool.specs.Pools.{pool, IsLive, IsMet, IsWider, row_at, with_row, with_spare};
ghost use Rattle.row_pool.specs.Pools.{with_row_taken, without_row};

use crate::row_id::RowId;
use crate::steps::Steps;
use crate::storage::Storage;
use std::alloc::{AllocError, Global};
use std::marker::Model;
use std::sync::ledger::Ledger;

/// How many rows a block that is too short gets more, at least.
const LEAST_GROWTH: u32 = 32;

/// Rows of one width. A row is live from `take` to `give_back`; spare rows wait to be taken, and
/// taking one needs no memory. Dropping the pool gives all its memory back.
#[derive(Drop)]
pub struct RowPool {
    storage: Storage,
    width: u32,
    total: u32,
    next: u64,
    spare: u32,
}

impl Model for RowPool {
    ghost use Rattle.row_pool.specs.Pools.{Pool, pool_code};

    ghost Value = { Pool };

    ghost coded = { pool_code };

    ghost use Rattle.row_pool.specs.inner.Layout.{pool_of, IsPool};

    ghost view = { pool_of };

    ghost invariant = { IsPool };
}

impl RowPool {
    /// Makes a pool of rows of so many words, with none spare. It takes no memory.
    pub fn new(alloc: Global, width: u32) -> RowPool
        requires { 1 ≤ width }
        ensures { result ≡ pool width map.empty 0 }
    {
        RowPool {
            storage: Storage::new(alloc),
            width,
            total: 0,
            next: 0,
            spare: 0,
        }
    }

    /// Makes `n` rows spare, if fewer are. Only here and in `new_width` a pool takes memory. Where
    /// the block is too short, it gets room for a quarter as many rows again, and for 32 at least,
    /// so that rows made one by one do not copy the block each time.
    pub fn reserve(&mut self, n: u32) -> Result<(), AllocError>
        requires { map.len self.old.rows + n < 2 ^ 32 }
        ensures ok { OnOk result (self.new ≡ with_spare self.old n) }
        ensures err { OnErr result (self.new ≡ self.old) }
        ensures sure { n ≤ self.old.spare → IsOk result }
    {
        if n <= self.spare {
            return Ok(());
        }
        let more = n - self.spare;
        let width = self.width as usize;
        let total = self.total + more;
        let room = self
            .total
            .saturating_add(more.max(self.total / 4).max(LEAST_GROWTH));
        self.storage
            .grow(total as usize * width, room as usize * width)?;
        'rows: for _ in 0..more {
            self.storage.set(self.total as usize * width, self.next);
            self.next = u64::from(self.total);
            self.total += 1;
            self.spare += 1;
        }
        Ok(())
    }

    /// Returns the number of spare rows.
    pub fn spare(&self) -> u32
        ensures { result ≡ self.now.spare }
    {
        self.spare
    }

    /// Takes a spare row, which is full, if there is one.
    pub fn take(&mut self) -> Option<RowId>
        ensures none { IsNone result ↔ (self.old.spare ≡ 0) }
        ensures unchanged { IfNone result (self.new ≡ self.old) }
        ensures new { IfSome result (λ id. map.get self.old.rows id ≡ None) }
        ensures taken { IfSome result (λ id. self.new ≡ with_row_taken self.old id) }
    {
        if self.spare == 0 {
            return None;
        }
        let first = self.next;
        let width = self.width as usize;
        let next = self.storage.words()[first as usize * width];
        self.storage.fill(width, first as usize);
        self.next = next;
        self.spare -= 1;
        Some(RowId::new(first as u32))
    }

    /// Makes a live row spare again.
    pub fn give_back(&mut self, id: RowId)
        requires { IsLive self.old id }
        ensures { self.new ≡ without_row self.old id }
    {
        let number = id.number();
        let width = self.width as usize;
        self.storage.set(number as usize * width, self.next);
        self.next = u64::from(number);
        self.spare += 1;
    }

    /// Lends the words of a live row.
    pub fn row(&self, id: &RowId) -> &[u64]
        requires { IsLive self.now id.now }
        ensures words { result.now ≡ row_at self.now id.now }
        ensures width { length result.now ≡ self.now.width }
    {
        let width = self.width as usize;
        let from = id.number() as usize * width;
        &self.storage.words()[from..from + width]
    }

    /// Sets all bits of a live row.
    pub fn fill(&mut self, id: &RowId)
        requires { IsLive self.old id.now }
        ensures { self.new ≡ with_row self.old id.now (full self.old.width) }
    {
        let width = self.width as usize;
        self.storage.fill(width, id.number() as usize);
    }

    /// Copies words into a live row.
    pub fn write(&mut self, id: &RowId, from: &[u64])
        requires live { IsLive self.old id.now }
        requires width { length from.now ≡ self.old.width }
        ensures { self.new ≡ with_row self.old id.now from.now }
    {
        let width = self.width as usize;
        self.storage.write(width, id.number() as usize, from);
    }

    /// Makes the row `to` the meet of `a` and `b`, which may be one row, and counts one step.
    pub fn meet_into<L: Ledger>(&mut self, to: &RowId, a: &RowId, b: &RowId, steps: &mut Steps<L>)
        requires live { IsLive self.old to.now × IsLive self.old a.now × IsLive self.old b.now }
        requires apart { (to.now ≢ a.now) × (to.now ≢ b.now) }
        ensures met { IsMet self.old a.now b.now self.new to.now }
        ensures others { self.new ≡ with_row self.old to.now (row_at self.new to.now) }
        ensures step { steps.new ≡ steps.old + 1 }
    {
        let width = self.width as usize;
        self.storage.meet(
            width,
            to.number() as usize,
            a.number() as usize,
            b.number() as usize,
        );
        steps.tick();
    }

    /// Makes all rows wider: each live row has full words after its own. A pool that has the width
    /// already stays as it is and takes no memory.
    pub fn new_width(&mut self, width: u32) -> Result<(), AllocError>
        requires { self.old.width ≤ width }
        ensures ok { OnOk result (IsWider self.old width self.new) }
        ensures err { OnErr result (self.new ≡ self.old) }
        ensures sure { width ≡ self.old.width → IsOk result }
        ensures unchanged { width ≡ self.old.width → self.new ≡ self.old }
    {
        if width == self.width {
            return Ok(());
        }
        let rows = self.total as usize;
        let old = self.width as usize;
        self.storage = self.storage.widened(rows, old, width as usize)?;
        self.width = width;
        Ok(())
    }
}
