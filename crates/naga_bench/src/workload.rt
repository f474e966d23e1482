//! The workloads, with their names and sizes.
use crate::arenas::{ArenaWork, on_arena};
use crate::blocks::{BlockWork, on_block};
use crate::bounds::{BoundsWork, on_bounds};
use crate::constants::on_constants;
use crate::fault::Fault;
use crate::filters::{FilterWork, on_filters};
use crate::flattening::on_flattening;
use crate::handles::on_handles;
use crate::kinds::{KindWork, on_kinds};
use crate::layouts::{LayoutsWork, on_layouts};
use crate::names::{NamesWork, on_names};
use crate::passes::{PassWork, on_pass};
use crate::processing::{on_commands, on_line, on_loop};
use crate::returns::{Nesting, on_returns};
use crate::sample::Sample;
use crate::sets::{Filling, SetWork, on_set};
use crate::spans::{SpanWork, TextWork, on_error, on_spans, on_text};
use crate::types::{TypesWork, on_types};
use crate::unique_arenas::{UniqueArenaWork, on_unique_arena};
use crate::uses::{JumpsWork, UsesWork, on_jumps, on_uses};
use naga_proc::Rule;

/// A workload. docs/PERFORMANCE.md describes each of them.
#[derive(Clone, Copy)]
pub enum Workload {
    Arena(ArenaWork),
    UniqueArena(UniqueArenaWork),
    Set(SetWork, Filling),
    Spans(SpanWork),
    Text(TextWork),
    Error,
    Block(BlockWork),
    Kinds(KindWork),
    Constants,
    Handles,
    Types(TypesWork),
    Bounds(BoundsWork),
    Names(NamesWork),
    Layouts(LayoutsWork),
    Uses(UsesWork),
    Jumps(JumpsWork),
    Filters(FilterWork),
    Flattening,
    Build,
    Pass(PassWork),
    Returns(Nesting, Rule),
    ReplayLoop,
    Reshape,
}

impl Workload {
    /// All workloads, in the order in which their lines are printed.
    pub const ALL: &'static [Self] = &[
        Workload::Arena(ArenaWork::Append),
        Workload::Arena(ArenaWork::Index),
        Workload::Arena(ArenaWork::Iterate),
        Workload::Arena(ArenaWork::FetchOrAppend),
        Workload::Arena(ArenaWork::RetainMut),
        Workload::Arena(ArenaWork::Drain),
        Workload::Arena(ArenaWork::Clone),
        Workload::Arena(ArenaWork::IterateRange),
        Workload::UniqueArena(UniqueArenaWork::Insert),
        Workload::UniqueArena(UniqueArenaWork::Get),
        Workload::Set(SetWork::Insert, Filling::Tenth),
        Workload::Set(SetWork::Insert, Filling::Full),
        Workload::Set(SetWork::Contains, Filling::Tenth),
        Workload::Set(SetWork::Contains, Filling::Full),
        Workload::Set(SetWork::Remove, Filling::Tenth),
        Workload::Set(SetWork::Remove, Filling::Full),
        Workload::Set(SetWork::Iterate, Filling::Tenth),
        Workload::Set(SetWork::Iterate, Filling::Full),
        Workload::Set(SetWork::Pop, Filling::Tenth),
        Workload::Set(SetWork::Pop, Filling::Full),
        Workload::Spans(SpanWork::Subsume),
        Workload::Spans(SpanWork::Total),
        Workload::Text(TextWork::Location),
        Workload::Text(TextWork::SliceOf),
        Workload::Error,
        Workload::Block(BlockWork::Push),
        Workload::Block(BlockWork::SpliceCull),
        Workload::Block(BlockWork::Clone),
        Workload::Kinds(KindWork::Literals),
        Workload::Kinds(KindWork::Tables),
        Workload::Constants,
        Workload::Handles,
        Workload::Types(TypesWork::Grow),
        Workload::Types(TypesWork::Check),
        Workload::Bounds(BoundsWork::Check),
        Workload::Bounds(BoundsWork::Restrict),
        Workload::Names(NamesWork::Call),
        Workload::Names(NamesWork::Reset),
        Workload::Layouts(LayoutsWork::Update),
        Workload::Layouts(LayoutsWork::Check),
        Workload::Uses(UsesWork::List),
        Workload::Uses(UsesWork::Nest),
        Workload::Uses(UsesWork::Chain),
        Workload::Uses(UsesWork::EmittedChain),
        Workload::Jumps(JumpsWork::List),
        Workload::Jumps(JumpsWork::Nest),
        Workload::Filters(FilterWork::Add),
        Workload::Filters(FilterWork::Search),
        Workload::Flattening,
        Workload::Build,
        Workload::Pass(PassWork::CompactFunction),
        Workload::Pass(PassWork::Compact),
        Workload::Pass(PassWork::Cull),
        Workload::Returns(Nesting::Chain, Rule::New),
        Workload::Returns(Nesting::Chain, Rule::Old),
        Workload::Returns(Nesting::Tree, Rule::New),
        Workload::Returns(Nesting::Tree, Rule::Old),
        Workload::Returns(Nesting::Switches, Rule::New),
        Workload::Returns(Nesting::Switches, Rule::Old),
        Workload::Returns(Nesting::Exits, Rule::New),
        Workload::Returns(Nesting::Exits, Rule::Old),
        Workload::Returns(Nesting::Wide, Rule::New),
        Workload::Returns(Nesting::Wide, Rule::Old),
        Workload::ReplayLoop,
        Workload::Reshape,
    ];

    /// Returns the workload with this name, or `None` if there is none.
    pub fn named(name: &str) -> Option<Self> {
        for workload in Self::ALL {
            if workload.name() == name {
                return Some(*workload);
            }
        }
        None
    }

    /// Returns the name of the workload.
    pub fn name(self) -> &'static str {
        match self {
            Workload::Arena(work) => work.name(),
            Workload::UniqueArena(work) => work.name(),
            Workload::Set(work, filling) => work.name(filling),
            Workload::Spans(work) => work.name(),
            Workload::Text(work) => work.name(),
            Workload::Error => "error_with_spans",
            Workload::Block(work) => work.name(),
            Workload::Kinds(work) => work.name(),
            Workload::Constants => "constant_value",
            Workload::Handles => "check_handles",
            Workload::Types(work) => work.name(),
            Workload::Bounds(work) => work.name(),
            Workload::Names(work) => work.name(),
            Workload::Layouts(work) => work.name(),
            Workload::Uses(work) => work.name(),
            Workload::Jumps(work) => work.name(),
            Workload::Filters(work) => work.name(),
            Workload::Flattening => "flatten_compose",
            Workload::Build => "build",
            Workload::Pass(work) => work.name(),
            Workload::Returns(nesting, rule) => nesting.name(rule),
            Workload::ReplayLoop => "replay_loop",
            Workload::Reshape => "reshape",
        }
    }

    /// Returns the size on which the workload is timed.
    pub fn full_size(self) -> u32 {
        match self {
            Workload::Returns(Nesting::Tree, _) => 18,
            Workload::Returns(Nesting::Wide, _) => 100,
            Workload::Returns(_, _) => 1_000,
            Workload::Pass(PassWork::Cull)
            | Workload::Uses(UsesWork::Nest)
            | Workload::Jumps(JumpsWork::Nest) => 10_000,
            Workload::Reshape => 7_000,
            Workload::Text(TextWork::Location) => 10_000,
            Workload::Block(BlockWork::SpliceCull) | Workload::Error => 100_000,
            Workload::Filters(_) | Workload::Build | Workload::Names(_) => 100_000,
            _ => 1_000_000,
        }
    }

    /// Returns the size for a run that prints no time, but only a checksum of what the workload returned and left.
    pub fn small_size(self) -> u32 {
        match self {
            Workload::Returns(Nesting::Tree, _) => 8,
            _ => 200,
        }
    }

    /// Runs the workload once.
    pub fn run(self, rt: &HostRuntime, size: u32) -> Result<Sample, Fault> {
        match self {
            Workload::Arena(work) => on_arena(rt, size, work),
            Workload::UniqueArena(work) => on_unique_arena(rt, size, work),
            Workload::Set(work, filling) => on_set(rt, size, work, filling),
            Workload::Spans(work) => on_spans(rt, size, work),
            Workload::Text(work) => on_text(rt, size, work),
            Workload::Error => on_error(rt, size),
            Workload::Block(work) => on_block(rt, size, work),
            Workload::Kinds(work) => on_kinds(rt, size, work),
            Workload::Constants => on_constants(rt, size),
            Workload::Handles => on_handles(rt, size),
            Workload::Types(work) => on_types(rt, size, work),
            Workload::Bounds(work) => on_bounds(rt, size, work),
            Workload::Names(work) => on_names(rt, size, work),
            Workload::Layouts(work) => on_layouts(rt, size, work),
            Workload::Uses(work) => on_uses(rt, size, work),
            Workload::Jumps(work) => on_jumps(rt, size, work),
            Workload::Filters(work) => on_filters(rt, size, work),
            Workload::Flattening => on_flattening(rt, size),
            Workload::Build => on_commands(rt, size),
            Workload::Pass(work) => on_pass(rt, size, work),
            Workload::Returns(nesting, rule) => on_returns(rt, size, nesting, rule),
            Workload::ReplayLoop => on_loop(rt, size),
            Workload::Reshape => on_line(rt, size),
        }
    }
}
