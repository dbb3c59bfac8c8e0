//! Seats whose steps may be asked for at any time: a step that isn't allowed now isn't made.

ghost use Rattle.std.specs.Prelude.{◌≡◌, ℕ, ◌<◌, [], IfSome};
ghost use Rattle.image_layout.specs.Image.{ImageValue};
ghost use Rattle.shelf_steps.specs.Plays.{newcomer, is_open};
ghost use Rattle.shelf_steps.specs.Handed.{handed};
ghost use Rattle.shelf_steps.specs.declared.views.View.{View};

use crate::tests::images::ImageSource;
use shelf_steps::laws::{
    close, gather, give_back, join, leave_late, look, note, open, publish, take,
};
use shelf_steps::{ShelfTable, TableSeat, editions_of, fill_block, try_shelf};
use std::alloc::AllocError;
use std::marker::Model;
use version_core::{MOST_VERSIONS, Shelf, Worker};

/// What a seat remembers about itself, so that its steps may be asked for at any time.
pub(crate) trait Memory {
    ghost use Rattle.shelf_steps.specs.Plays.{SeatAndSlots};

    // What the seat remembers is what its view knows, with these slots out.
    ghost is_so: { Self → SeatAndSlots → Type 0 };
}

/// A worker remembers what it is doing.
impl Memory for Worker {
    ghost use Rattle.tests_version.specs.Stepping.{DoesSo};

    ghost is_so = { DoesSo };
}

/// The version of a notice.
#[derive(Drop)]
pub(crate) struct NoticeMemory {
    version: u64,
}

impl Memory for NoticeMemory {
    ghost use Rattle.shelf_steps.specs.Plays.{IsNotice};

    ghost is_so = { λ noted. IsNotice noted.version };
}

/// The loader remembers the current version, the newest, and what each shelf is for.
#[derive(Drop)]
pub(crate) struct Loaded {
    current: u64,
    newest: u64,
    shelves: [Shelf; 8],
}

impl Memory for Loaded {
    ghost use Rattle.tests_version.specs.Stepping.{RemembersSo};

    ghost is_so = { λ loaded. RemembersSo loaded.current loaded.newest loaded.shelves };
}

/// A seat, and what it remembers. Contracts see only the table.
#[derive(Drop)]
pub(crate) struct Steps<M: Memory + Drop> {
    index: TableSeat,
    memory: M,
}

impl<M: Memory + Drop> Model for Steps<M> {
    ghost use Rattle.atomic_table.specs.Seated.{TableId};

    ghost Value = { TableId };

    ghost view = { λ s. s.index.table };

    ghost invariant = { λ s. M.is_so s.memory s.index.me };
}

pub(crate) type WorkerSteps = Steps<Worker>;

/// A notice that is out.
pub(crate) type NoticeSteps = Steps<NoticeMemory>;

pub(crate) type LoaderSteps = Steps<Loaded>;

impl WorkerSteps {
    pub(crate) fn of(index: TableSeat) -> WorkerSteps
        requires { (n : ℕ) × (index.me ≡ (View.Working (newcomer n), [])) }
        ensures { result ≡ index.table }
    {
        Steps {
            index,
            memory: Worker::Idle,
        }
    }

    /// Looks, if the worker is idle, and returns the word that was found.
    #[tactic(auto, using(crate::proofs::Stepping::idle_now, crate::proofs::Stepping::looked_so))]
    pub(crate) fn look(&mut self, shelves: &ShelfTable) -> Option<u64>
        requires { self.old ≡ shelves.now }
        ensures { self.new ≡ self.old }
    {
        match self.memory {
            Worker::Idle => {
                let word = look(shelves, &mut self.index);
                self.memory = Worker::Looked {
                    version: word / 8,
                    shelf: (word % 8) as usize,
                };
                Some(word)
            }
            Worker::Looked { .. } | Worker::Late { .. } | Worker::Holding { .. } => None,
        }
    }

    /// Takes the version that the worker had looked at, if it had looked at one: `Some` of the version that it holds
    /// now, or of `None` if it came late.
    #[tactic(auto, using(crate::proofs::Stepping::looked_now, crate::proofs::Stepping::held_so, crate::proofs::Stepping::late_so))]
    pub(crate) fn take(&mut self, shelves: &ShelfTable) -> Option<Option<u64>>
        requires { self.old ≡ shelves.now }
        ensures { self.new ≡ self.old }
    {
        match self.memory {
            Worker::Looked { version, shelf } => {
                let word = take(shelves, &mut self.index, shelf);
                if says_open(word, version) {
                    self.memory = Worker::Holding { shelf, version };
                    Some(Some(version))
                } else {
                    self.memory = Worker::Late { shelf };
                    Some(None)
                }
            }
            Worker::Idle | Worker::Late { .. } | Worker::Holding { .. } => None,
        }
    }

    /// Leaves the shelf, if the worker is at one, and returns whether it was.
    #[tactic(auto, using(crate::proofs::Stepping::late_now, crate::proofs::Stepping::left_so, crate::proofs::Stepping::holding_now, crate::proofs::Stepping::given_so))]
    pub(crate) fn leave(&mut self, shelves: &ShelfTable) -> bool
        requires { self.old ≡ shelves.now }
        ensures { self.new ≡ self.old }
    {
        match self.memory {
            Worker::Late { shelf } => {
                leave_late(shelves, &mut self.index, shelf);
                self.memory = Worker::Idle;
                true
            }
            Worker::Holding { shelf, version: _ } => {
                give_back(shelves, &mut self.index, shelf);
                self.memory = Worker::Idle;
                true
            }
            Worker::Idle | Worker::Looked { .. } => false,
        }
    }

    /// Takes in the notice, if the worker is idle or holds a version; otherwise the notice comes back.
    #[tactic(auto, using(crate::proofs::Stepping::idle_settled, crate::proofs::Stepping::holding_settled, crate::proofs::Stepping::idle_joined, crate::proofs::Stepping::holding_joined))]
    pub(crate) fn join(&mut self, shelves: &ShelfTable, notice: NoticeSteps) -> Option<NoticeSteps>
        requires { (self.old ≡ shelves.now) × (notice ≡ shelves.now) }
        ensures worker { self.new ≡ self.old }
        ensures back { IfSome result (λ back. back ≡ notice) }
    {
        match self.memory {
            Worker::Idle => {
                join(shelves, &mut self.index, notice.index);
                None
            }
            Worker::Holding { .. } => {
                join(shelves, &mut self.index, notice.index);
                None
            }
            Worker::Looked { .. } | Worker::Late { .. } => Some(notice),
        }
    }
}

impl NoticeSteps {
    /// The version of the notice.
    pub(crate) fn version(&self) -> u64 {
        self.memory.version
    }
}

fn says_open(word: u64, version: u64) -> bool
    ensures { result ≡ is_open word version }
{
    word / 256 % 4 == 1 && word / 65536 == version
}

impl LoaderSteps {
    pub(crate) fn of(index: TableSeat) -> LoaderSteps
        requires { (n : ℕ) × (image : ImageValue) × (index.me ≡ (View.Loading (handed n image), [])) }
        ensures { result ≡ index.table }
    {
        let mut shelves = [Shelf::Free; 8];
        shelves[0] = Shelf::Open { version: 1 };
        let memory = Loaded {
            current: 1,
            newest: 1,
            shelves,
        };
        Steps { index, memory }
    }

    /// Gives a notice of the current version.
    #[tactic(auto, using(crate::proofs::Stepping::may_note_so, crate::proofs::Stepping::notice_so, crate::proofs::Stepping::noted_so))]
    pub(crate) fn note(&mut self, table: &ShelfTable) -> NoticeSteps
        requires { self.old ≡ table.now }
        ensures { (self.new ≡ self.old) × (result ≡ table.now) }
    {
        let index = note(table, &mut self.index);
        let version = self.memory.current;
        Steps {
            index,
            memory: NoticeMemory { version },
        }
    }

    /// Opens the next version on this shelf, if that is allowed, and returns whether it did.
    pub(crate) fn open(
        &mut self,
        table: &ShelfTable,
        shelf: usize,
        source: &ImageSource,
    ) -> Result<bool, AllocError>
        requires { (self.old ≡ table.now) × (shelf < 8) }
        ensures { self.new ≡ self.old }
    {
        let Shelf::Free = self.memory.shelves[shelf] else {
            return Ok(false);
        };
        if self.memory.current != self.memory.newest || self.memory.newest >= MOST_VERSIONS {
            return Ok(false);
        }
        let version = self.memory.newest + 1;
        let editions = editions_of(source.alloc, version, &source.image)?;
        gather(table, &mut self.index, shelf);
        fill_block(table, &mut self.index, shelf, editions);
        open(table, &mut self.index, shelf, version);
        self.memory.shelves[shelf] = Shelf::Open { version };
        self.memory.newest = version;
        Ok(true)
    }

    /// Publishes the version on this shelf, if it is unpublished, and returns whether it did.
    pub(crate) fn publish(&mut self, table: &ShelfTable, shelf: usize) -> bool
        requires { (self.old ≡ table.now) × (shelf < 8) }
        ensures { self.new ≡ self.old }
    {
        match self.memory.shelves[shelf] {
            Shelf::Open { version } if self.memory.current < version => {
                publish(table, &mut self.index, version, shelf);
                self.memory.current = version;
                true
            }
            Shelf::Open { .. } | Shelf::Free | Shelf::Closing { .. } => false,
        }
    }

    /// Closes this shelf, if its version is outdated, and returns whether it did.
    pub(crate) fn close(&mut self, table: &ShelfTable, shelf: usize) -> bool
        requires { (self.old ≡ table.now) × (shelf < 8) }
        ensures { self.new ≡ self.old }
    {
        match self.memory.shelves[shelf] {
            Shelf::Open { version } if version < self.memory.current => {
                close(table, &mut self.index, shelf);
                self.memory.shelves[shelf] = Shelf::Closing { version };
                true
            }
            Shelf::Open { .. } | Shelf::Free | Shelf::Closing { .. } => false,
        }
    }

    /// Tries this shelf, if it is closing, and returns how many workers were found at it. If there were none, it is
    /// free now.
    pub(crate) fn collect(&mut self, table: &ShelfTable, shelf: usize) -> Option<u8>
        requires { (self.old ≡ table.now) × (shelf < 8) }
        ensures { self.new ≡ self.old }
    {
        match self.memory.shelves[shelf] {
            Shelf::Closing { version } => {
                match try_shelf(table, &mut self.index, shelf, version) {
                    Some(count) => Some(count),
                    None => {
                        self.memory.shelves[shelf] = Shelf::Free;
                        Some(0)
                    }
                }
            }
            Shelf::Open { .. } | Shelf::Free => None,
        }
    }
}
