//! The state behind the lock with a caller of it, and a reader of its trees.
ghost use Rattle.std.specs.Prelude.{◌≡◌, IfSome, slice_get, Some};
ghost use Rattle.lock_core.specs.declared.stage.Stage.TheVariants.{Out};
ghost use Rattle.vma_lock.specs.Seats.{vma_table_id, IsOfVmaTable, stage, HasTurn};
ghost use Rattle.node_slots.specs.Seats as trees;

use mm_state::MmState;
use mm_types::{Call, Config, NoMemory, Reply, rows_for, slots_for};
use node_slots::{NodeSeat, NodeTable};
use std::alloc::Global;
use std::sync::Wait;
use vma_lock::{ReaderSeat, VmaTable};

/// For how many calls there is room.
const ROOM: u64 = 8000;

/// A state, its tables, a reader that holds no slot and has its turn, and a closed reader of the trees.
#[derive(Drop)]
pub(crate) struct Bench {
    table: VmaTable,
    state: MmState,
    seat: ReaderSeat,
    nodes: NodeTable,
    node_seat: NodeSeat,
    pub ghost walker: { trees.IsOfNodeTable node_seat nodes × trees.IsClosed node_seat },
    pub ghost mine: { IsOfVmaTable seat table × (vma_table_id table ≡ state.table) },
    pub ghost turn: { (stage seat ≡ Out) × HasTurn seat },
    pub ghost room: { state.room ≡ 8000 },
}

/// A state with a reader that holds no slot and has its turn.
#[derive(Drop)]
pub(crate) struct Caller {
    state: MmState,
    seat: ReaderSeat,
    pub ghost mine: { seat.seat.table_id ≡ state.table },
    pub ghost turn: { (stage seat ≡ Out) × HasTurn seat },
    pub ghost room: { state.room ≡ 8000 },
}

/// A reader of the trees that is inside none, or inside one.
#[derive(Drop)]
pub(crate) struct Walker {
    nodes: NodeTable,
    seat: NodeSeat,
    pub ghost mine: { trees.IsOfNodeTable seat nodes },
}

impl Caller {
    /// Makes a call where there is room for another.
    pub(crate) fn call<R: Wait>(&mut self, rt: &R, call: &Call) -> Option<Reply> {
        if self.state.version() >= ROOM {
            return None;
        }
        Some(self.state.apply(rt, &mut self.seat, call))
    }
}

impl Walker {
    /// Enters the tree that is present.
    pub(crate) fn enter(&mut self)
        requires { trees.IsClosed self.old.seat }
        ensures { trees.IsOpen self.new.seat }
    {
        self.nodes.open(&mut self.seat);
        self.nodes.root(&mut self.seat);
    }

    /// Leaves it.
    pub(crate) fn leave(&mut self)
        requires { trees.IsOpen self.old.seat }
    {
        self.nodes.close(&mut self.seat);
    }
}

impl Bench {
    ghost use Rattle.mm_types.specs.Config.{IsValidConfig};

    /// A state with no area, of at most 9.
    pub(crate) fn open(alloc: Global, config: Config) -> Result<Option<Bench>, NoMemory>
        requires valid { IsValidConfig config }
        requires areas { config.areas ≡ 9 }
    {
        let (table, writer, seats) = VmaTable::new(alloc, &config, 1)?;
        let Some(seat) = first(seats) else {
            return Ok(None);
        };
        let (nodes, node_writer, node_seats) = NodeTable::new(
            alloc,
            rows_for(config.areas),
            slots_for(config.areas),
            1,
        )?;
        let Some(node_seat) = first(node_seats) else {
            return Ok(None);
        };
        let state = MmState::new(alloc, config, ROOM, writer, node_writer)?;
        Ok(Some(Bench {
            table,
            state,
            seat,
            nodes,
            node_seat,
        }))
    }

    /// The state with its reader, and the reader of the trees.
    pub(crate) fn part(self) -> (Caller, Walker)
        ensures { trees.IsClosed result.1.seat }
    {
        let Bench {
            table: _,
            state,
            seat,
            nodes,
            node_seat,
        } = self;
        let walker = Walker {
            nodes,
            seat: node_seat,
        };
        (Caller { state, seat }, walker)
    }
}

/// The first of some readers.
fn first<S: Drop>(mut seats: Vec<S>) -> Option<S>
    ensures { IfSome result (λ seat. slice_get seats.items 0 ≡ Some seat) }
{
    if seats.is_empty() {
        None
    } else {
        Some(seats.swap_remove(0))
    }
}
