ghost use Rattle.std.specs.Prelude.{◌≡◌, OnOk};
ghost use Rattle.page_rows.specs.Pages.{no_lists, with_row};

use crate::{
    Amount, BarRow, BetweenRow, BoxRow, BucketRow, GainRow, LatencyRow, LoadRow, PipeRow,
    PlacedBar, RankRow, RefusedRow, ReportHead, RoomRow, Row, SegmentRow, TailHead, TailRow,
};
use std::alloc::{AllocError, Global};
use std::marker::Model;

/// A page: its rows by kind, seen as the lists of `PageLists`.
#[derive(Debug, Drop)]
pub struct Page {
    report: ReportHead,
    latency: LatencyRow,
    tail: TailHead,
    refused: Vec<RefusedRow>,
    segments: Vec<SegmentRow>,
    tail_segments: Vec<TailRow>,
    buckets: Vec<BucketRow>,
    ranks: Vec<RankRow>,
    gains: Vec<GainRow>,
    rooms: Vec<RoomRow>,
    loads: Vec<LoadRow>,
    bars: Vec<PlacedBar>,
    boxes: Vec<BoxRow>,
    betweens: Vec<BetweenRow>,
    pipes: Vec<PipeRow>,
}

impl Model for Page {
    ghost use Rattle.page_rows.specs.Pages.{PageLists};

    ghost Value = { PageLists };

    ghost view = { λ a. record {
      report = a.report;
      latency = a.latency;
      tail = a.tail;
      refused = a.refused.items;
      segments = a.segments.items;
      tail_segments = a.tail_segments.items;
      buckets = a.buckets.items;
      ranks = a.ranks.items;
      gains = a.gains.items;
      rooms = a.rooms.items;
      loads = a.loads.items;
      bars = a.bars.items;
      boxes = a.boxes.items;
      betweens = a.betweens.items;
      pipes = a.pipes.items;
    } };
}

impl Page {
    /// Makes a page without rows.
    pub(crate) fn new(alloc: Global) -> Page
        ensures { result ≡ no_lists }
    {
        Page {
            report: ReportHead {
                traces: Amount::of(0),
                critical: Amount::of(0),
            },
            latency: LatencyRow {
                count: Amount::of(0),
                sum: Amount::of(0),
                median: Amount::of(0),
                greatest: Amount::of(0),
            },
            tail: TailHead {
                traces: Amount::of(0),
                slow: Amount::of(0),
                floor: Amount::of(0),
            },
            refused: Vec::new(alloc),
            segments: Vec::new(alloc),
            tail_segments: Vec::new(alloc),
            buckets: Vec::new(alloc),
            ranks: Vec::new(alloc),
            gains: Vec::new(alloc),
            rooms: Vec::new(alloc),
            loads: Vec::new(alloc),
            bars: Vec::new(alloc),
            boxes: Vec::new(alloc),
            betweens: Vec::new(alloc),
            pipes: Vec::new(alloc),
        }
    }

    /// Appends a bar of the last load.
    fn add_bar(&mut self, bar: BarRow) -> Result<(), AllocError>
        ensures { OnOk result (self.new ≡ with_row self.old (Row.Bar bar)) }
    {
        let load = self.loads.len();
        Ok(self.bars.push(PlacedBar { load, bar })?)
    }

    /// Appends a row to its list. The only error is out of memory.
    pub(crate) fn add(&mut self, row: Row) -> Result<(), AllocError>
        ensures { OnOk result (self.new ≡ with_row self.old row) }
    {
        match row {
            Row::Refused(row) => self.refused.push(row)?,
            Row::Report(row) => self.report = row,
            Row::Latency(row) => self.latency = row,
            Row::Segment(row) => self.segments.push(row)?,
            Row::Tail(row) => self.tail = row,
            Row::TailSegment(row) => self.tail_segments.push(row)?,
            Row::Bucket(row) => self.buckets.push(row)?,
            Row::Rank(row) => self.ranks.push(row)?,
            Row::Gain(row) => self.gains.push(row)?,
            Row::Room(row) => self.rooms.push(row)?,
            Row::Load(row) => self.loads.push(row)?,
            Row::Bar(row) => self.add_bar(row)?,
            Row::Box(row) => self.boxes.push(row)?,
            Row::Between(row) => self.betweens.push(row)?,
            Row::Pipe(row) => self.pipes.push(row)?,
            Row::Ranks | Row::Gains | Row::Rooms | Row::Loads => {}
        }
        Ok(())
    }

    /// Lends the head of the report.
    pub fn report(&self) -> &ReportHead
        ensures { result.now ≡ self.now.report }
    {
        &self.report
    }

    /// Lends the figures of the latencies.
    pub fn latency(&self) -> &LatencyRow
        ensures { result.now ≡ self.now.latency }
    {
        &self.latency
    }

    /// Lends the head of the report on the slowest loads.
    pub fn tail(&self) -> &TailHead
        ensures { result.now ≡ self.now.tail }
    {
        &self.tail
    }

    /// Lends the traces that were refused.
    pub fn refused(&self) -> &[RefusedRow]
        ensures { result.now ≡ self.now.refused }
    {
        &self.refused
    }

    /// Lends the figures of each name.
    pub fn segments(&self) -> &[SegmentRow]
        ensures { result.now ≡ self.now.segments }
    {
        &self.segments
    }

    /// Lends those on the slowest loads.
    pub fn tail_segments(&self) -> &[TailRow]
        ensures { result.now ≡ self.now.tail_segments }
    {
        &self.tail_segments
    }

    /// Lends the loads, rank by rank.
    pub fn buckets(&self) -> &[BucketRow]
        ensures { result.now ≡ self.now.buckets }
    {
        &self.buckets
    }

    /// Lends the time of each name, rank by rank.
    pub fn ranks(&self) -> &[RankRow]
        ensures { result.now ≡ self.now.ranks }
    {
        &self.ranks
    }

    /// Lends the gain of each name.
    pub fn gains(&self) -> &[GainRow]
        ensures { result.now ≡ self.now.gains }
    {
        &self.gains
    }

    /// Lends the slack of each name.
    pub fn rooms(&self) -> &[RoomRow]
        ensures { result.now ≡ self.now.rooms }
    {
        &self.rooms
    }

    /// Lends the loads that are shown.
    pub fn loads(&self) -> &[LoadRow]
        ensures { result.now ≡ self.now.loads }
    {
        &self.loads
    }

    /// Lends their segments, each behind the number of its load, from 1.
    pub fn bars(&self) -> &[PlacedBar]
        ensures { result.now ≡ self.now.bars }
    {
        &self.bars
    }

    /// Lends the boxes of the model.
    pub fn boxes(&self) -> &[BoxRow]
        ensures { result.now ≡ self.now.boxes }
    {
        &self.boxes
    }

    /// Lends the relations between them.
    pub fn betweens(&self) -> &[BetweenRow]
        ensures { result.now ≡ self.now.betweens }
    {
        &self.betweens
    }

    /// Lends the pipelines.
    pub fn pipes(&self) -> &[PipeRow]
        ensures { result.now ≡ self.now.pipes }
    {
        &self.pipes
    }
}
