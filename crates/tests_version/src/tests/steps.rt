//! Steps at shelves: by scripts, and at random, compared with the state machine of versions.

mod stepping;

ghost use Rattle.std.specs.Prelude.{◌≡◌, ◌<◌, ◌≤◌};

use crate::tests::images::ImageSource;
use shelf_steps::laws::{new_shelves, new_worker};
use shelf_steps::*;
use std::alloc::{AllocError, Global};
use std::fmt::Debug;
use std::marker::Model;
use std::process::Abort;
use std::test::*;
use stepping::{LoaderSteps, NoticeSteps, WorkerSteps};
use version_core::{Core, Reply, Shelf, Worker};

/// Shelves with the loader's seat and those of two workers, the notices that no worker took in, and the image that is
/// published.
#[derive(Drop)]
struct Scene {
    table: ShelfTable,
    source: ImageSource,
    loader: LoaderSteps,
    first: WorkerSteps,
    second: WorkerSteps,
    notices: Vec<NoticeSteps>,
}

impl Model for Scene {
    ghost use Rattle.std.specs.Prelude.{◌≡◌};
    ghost use Rattle.std.specs.List.{All};
    ghost use Rattle.atomic_table.specs.Seated.{TableId};

    ghost Value = { TableId };

    ghost view = { λ s. s.table };

    // Each seat and each notice belongs to these shelves.
    ghost invariant = { λ s. (s.loader ≡ s.table) × (s.first ≡ s.table) × (s.second ≡ s.table)
        × All (λ notice. notice ≡ s.table) s.notices.items };
}

impl Scene {
    fn new(alloc: Global) -> Result<Scene, AllocError> {
        let source = ImageSource::new(alloc, 1)?;
        let (table, mut index) = new_shelves(alloc, &source.image)?;
        let worker = new_worker(&table, &mut index);
        let other = new_worker(&table, &mut index);
        Ok(Scene {
            table,
            source,
            loader: LoaderSteps::of(index),
            first: WorkerSteps::of(worker),
            second: WorkerSteps::of(other),
            notices: Vec::new(alloc),
        })
    }

    fn look(&mut self, number: usize) -> Option<u64> {
        match number {
            0 => self.first.look(&self.table),
            _ => self.second.look(&self.table),
        }
    }

    fn take(&mut self, number: usize) -> Option<Option<u64>> {
        match number {
            0 => self.first.take(&self.table),
            _ => self.second.take(&self.table),
        }
    }

    fn leave(&mut self, number: usize) -> bool {
        match number {
            0 => self.first.leave(&self.table),
            _ => self.second.leave(&self.table),
        }
    }

    /// The worker takes in the notice that was given last, if there is one. Returns the notice's version, and whether
    /// it was taken in; otherwise the notice is kept.
    fn join(&mut self, number: usize) -> Result<Option<(u64, bool)>, AllocError> {
        let Some(notice) = self.notices.pop() else {
            return Ok(None);
        };
        let version = notice.version();
        let back = match number {
            0 => self.first.join(&self.table, notice),
            _ => self.second.join(&self.table, notice),
        };
        let Some(notice) = back else {
            return Ok(Some((version, true)));
        };
        self.notices.push(notice)?;
        Ok(Some((version, false)))
    }

    /// The loader gives a notice, whose version is returned.
    fn note(&mut self) -> Result<u64, AllocError> {
        let notice = self.loader.note(&self.table);
        let version = notice.version();
        self.notices.push(notice)?;
        Ok(version)
    }
}

/// A worker comes late to a shelf that is opened again before it leaves.
const LATE_AT_AN_OPEN_SHELF: &str = "\
look: Some(8)
open 1: true
publish 1: true
close 0: true
collect 0: Some(0)
open 0: true
take: Some(None)
word 1: 196865
leave: true
word 1: 196864
publish 0: true
word 0: 24
look: Some(24)
take: Some(Some(3))
close 1: true
collect 1: Some(0)";

/// A worker comes late to a free shelf, which is then opened again.
const LATE_AT_A_FREE_SHELF: &str = "\
look: Some(8)
open 1: true
publish 1: true
close 0: true
collect 0: Some(0)
take: Some(None)
word 1: 1
open 0: true
word 1: 196865
leave: true
word 1: 196864";

fn number(text: &str) -> Result<usize, Fail> {
    match text.parse() {
        Ok(number) => Ok(number),
        Err(_) => Err(Fail::new("a number of a script")),
    }
}

/// The debug text of an answer.
fn words<T: Debug + Drop>(alloc: Global, answer: T) -> Result<String, AllocError> {
    format!(in alloc; "{answer:?}")
}

impl Scene {
    /// What a step of the first worker tells.
    fn worker_tells(&mut self, step: &str) -> Result<String, AllocError> {
        let alloc = self.source.alloc;
        match step {
            "look" => words(alloc, self.look(0)),
            "take" => words(alloc, self.take(0)),
            _ => words(alloc, self.leave(0)),
        }
    }

    /// What a step of the loader at a shelf tells; or for `word` the word with this number, which is below 8 too.
    fn loader_tells(&mut self, step: &str, shelf: usize) -> Result<String, AllocError>
        requires { shelf < 8 }
    {
        let alloc = self.source.alloc;
        match step {
            "open" => words(alloc, self.loader.open(&self.table, shelf, &self.source)?),
            "publish" => words(alloc, self.loader.publish(&self.table, shelf)),
            "close" => words(alloc, self.loader.close(&self.table, shelf)),
            "collect" => words(alloc, self.loader.collect(&self.table, shelf)),
            _ => words(alloc, self.table.word(shelf)),
        }
    }
}

/// A step of the first worker, or one of the loader at a shelf.
fn step_tells(scene: &mut Scene, step: &str) -> Result<String, Fail> {
    let Some((step, shelf)) = step.split_once(' ') else {
        return Ok(scene.worker_tells(step)?);
    };
    let shelf = number(shelf)?;
    if shelf < 8 {
        Ok(scene.loader_tells(step, shelf)?)
    } else {
        Err(Fail::new("a shelf of a script"))
    }
}

fn play<R: Abort>(rt: &R, scene: &mut Scene, script: &str) -> Result<(), Fail> {
    for line in script.split('\n') {
        let (step, expected) = line.split_once(": ").unwrap_or((line, ""));
        let answer = step_tells(scene, step)?;
        assert_eq!(rt; answer.as_str(), expected, "{line}");
    }
    Ok(())
}

fn play_at_new_shelves<R: Abort>(rt: &R, alloc: Global, script: &str) -> Result<(), Fail> {
    match Scene::new(alloc) {
        Ok(mut scene) => play(rt, &mut scene, script),
        Err(refused) => Err(refused.into()),
    }
}

#[test]
fn late_takes(rt: HostRuntime) -> Result<(), Fail> {
    for script in [LATE_AT_AN_OPEN_SHELF, LATE_AT_A_FREE_SHELF] {
        play_at_new_shelves(&rt, rt.alloc(), script)?;
    }
    Ok(())
}

/// How often something rare came about.
#[derive(Default, Drop)]
struct Rare {
    late_at_free: u32,
    late_at_open: u32,
    opened_over_late: u32,
    busy_with_two: u32,
    joined_newer: u32,
    joined_older: u32,
    joined_while_holding: u32,
    not_joined: u32,
}

impl Rare {
    /// Counts what became of the shelf to which the worker came late.
    fn came_late(&mut self, core: &Core, number: usize) {
        let Some(Worker::Late { shelf }) = core.worker(number) else {
            return;
        };
        match core.shelf(shelf) {
            Some(Shelf::Free) => self.late_at_free = self.late_at_free.wrapping_add(1),
            Some(Shelf::Open { .. }) => self.late_at_open = self.late_at_open.wrapping_add(1),
            Some(Shelf::Closing { .. }) | None => {}
        }
    }

    /// Counts that the worker, which had seen version `seen`, took in a notice of this version.
    fn joins(&mut self, core: &Core, number: usize, seen: u64, version: u64) {
        if version > seen {
            self.joined_newer = self.joined_newer.wrapping_add(1);
            if let Some(Worker::Holding { .. }) = core.worker(number) {
                self.joined_while_holding = self.joined_while_holding.wrapping_add(1);
            }
        }
        if version < seen {
            self.joined_older = self.joined_older.wrapping_add(1);
        }
    }
}

/// The state machine that is compared with the shelves, and how often something rare came about.
#[derive(Drop)]
struct Beside {
    core: Core,
    rare: Rare,
}

impl Beside {
    /// Whether the state machine lets the worker take in a notice of this version exactly if it did.
    fn joins(&mut self, number: usize, version: u64, is_joined: bool) -> bool {
        let before = self.core.seen(number).unwrap_or(0);
        match (is_joined, self.core.join(number, version)) {
            (true, Reply::Joined { seen }) => {
                self.rare.joins(&self.core, number, before, version);
                seen == before.max(version)
            }
            (false, Reply::NotNow) => {
                self.rare.not_joined = self.rare.not_joined.wrapping_add(1);
                true
            }
            _ => false,
        }
    }
}

/// A look of a worker at the shelves and in the state machine; whether both tell the same.
fn looks(scene: &mut Scene, beside: &mut Beside, number: usize) -> bool {
    match (scene.look(number), beside.core.look(number)) {
        (Some(word), Reply::Looked { version, shelf }) => {
            word / 8 == version && (word % 8) as usize == shelf
        }
        (None, Reply::NotNow) => true,
        _ => false,
    }
}

/// The same for a take.
fn takes(scene: &mut Scene, beside: &mut Beside, number: usize) -> bool {
    match (scene.take(number), beside.core.take(number)) {
        (Some(Some(held)), Reply::Holds { version }) => held == version,
        (Some(None), Reply::Late) => {
            beside.rare.came_late(&beside.core, number);
            true
        }
        (None, Reply::NotNow) => true,
        _ => false,
    }
}

/// The same for any step of a worker.
fn worker_steps(
    scene: &mut Scene,
    beside: &mut Beside,
    number: usize,
    choice: u64,
) -> Result<bool, AllocError> {
    match choice {
        0 => Ok(looks(scene, beside, number)),
        1 => Ok(takes(scene, beside, number)),
        2 => Ok(scene.leave(number) == (beside.core.leave(number) == Reply::Dropped)),
        _ => match scene.join(number)? {
            Some((version, is_joined)) => Ok(beside.joins(number, version, is_joined)),
            None => Ok(true),
        },
    }
}

impl Scene {
    /// One step of the loader at the shelves and in the state machine, which opens the least free shelf and knows which
    /// shelf to publish. A version that is published comes with a notice.
    fn loader_steps(
        &mut self,
        beside: &mut Beside,
        shelf: usize,
        choice: u64,
    ) -> Result<bool, AllocError>
        requires { shelf < 8 }
    {
        match choice {
            0 => self.opens(beside),
            1 => self.publishes(beside),
            2 => {
                let is_closed = self.loader.close(&self.table, shelf);
                Ok(is_closed == (beside.core.close(shelf) == Reply::Closing))
            }
            _ => Ok(self.collects(beside, shelf)),
        }
    }

    fn publishes(&mut self, beside: &mut Beside) -> Result<bool, AllocError> {
        match (
            publish_any(&self.table, &mut self.loader),
            beside.core.publish(),
        ) {
            (true, Reply::Published { .. }) => {
                let version = self.note()?;
                Ok(beside.core.note()? == Reply::Noted { version })
            }
            (false, Reply::NotNow) => Ok(true),
            _ => Ok(false),
        }
    }

    fn opens(&mut self, beside: &mut Beside) -> Result<bool, AllocError> {
        let Some(free) = beside.core.free_shelf() else {
            return Ok(true);
        };
        let opened = free < 8 && self.loader.open(&self.table, free, &self.source)?;
        if opened && self.table.word(free + 1) % 256 > 0 {
            beside.rare.opened_over_late = beside.rare.opened_over_late.wrapping_add(1);
        }
        let reply = beside.core.open(0)?;
        Ok(opened == (reply != Reply::NotNow))
    }

    fn collects(&mut self, beside: &mut Beside, shelf: usize) -> bool
        requires { shelf < 8 }
    {
        let found = self.loader.collect(&self.table, shelf);
        match (found, beside.core.collect(shelf)) {
            (Some(found), Reply::Freed) => found == 0,
            (Some(found), Reply::Busy { count }) => {
                if found > 1 {
                    beside.rare.busy_with_two = beside.rare.busy_with_two.wrapping_add(1);
                }
                found == count
            }
            (None, Reply::NotNow) => true,
            _ => false,
        }
    }
}

/// Publishes the version that isn't published yet, if there is one, and returns whether there was.
fn publish_any(table: &ShelfTable, loader: &mut LoaderSteps) -> bool
    requires { loader.old ≡ table.now }
    ensures { loader.new ≡ loader.old }
{
    let mut published = false;
    for k in 0..8usize {
        published = loader.publish(table, k) || published;
    }
    published
}

/// 1 if the worker is at the shelf in the state machine, otherwise 0.
fn at_shelf(core: &Core, number: usize, shelf: usize) -> u64
    ensures { result ≤ 1 }
{
    match core.worker(number) {
        Some(Worker::Late { shelf: at }) if at == shelf => 1,
        Some(
            Worker::Holding {
                shelf: at,
                version: _,
            },
        ) if at == shelf => 1,
        _ => 0,
    }
}

/// Whether each word says what the state machine says.
fn words_agree(table: &ShelfTable, core: &Core) -> bool {
    let (version, shelf) = core.current();
    let word = table.word(0);
    let mut agree = word / 8 == version && (word % 8) as usize == shelf;
    for k in 0..8usize {
        let word = table.word(k + 1);
        let (state, version) = match core.shelf(k) {
            Some(Shelf::Open { version }) => (1, version),
            Some(Shelf::Closing { version }) => (2, version),
            Some(Shelf::Free) | None => (0, 0),
        };
        agree = agree && word / 65536 == version && word / 256 % 256 == state;
        agree = agree && word % 256 == at_shelf(core, 0, k) + at_shelf(core, 1, k);
    }
    agree
}

impl Rare {
    /// Whether each of these came about often enough.
    fn is_seen(&self) -> bool {
        let late = self.late_at_free > 3 && self.late_at_open > 3 && self.opened_over_late > 3;
        let joined = self.joined_newer > 3 && self.joined_older > 3;
        let rare = self.joined_while_holding > 3 && self.not_joined > 3;
        late && joined && rare && self.busy_with_two > 3
    }
}

/// A step of either worker or of the loader, chosen by the number; whether the shelves and the state machine told the
/// same.
fn one_step(scene: &mut Scene, beside: &mut Beside, random: u64) -> Result<bool, AllocError> {
    let choice = random / 8589934592 % 4;
    let shelf = (random / 1099511627776 % 4) as usize;
    match random / 281474976710656 % 8 {
        0 => worker_steps(scene, beside, 0, choice),
        1 => worker_steps(scene, beside, 1, choice),
        _ => scene.loader_steps(beside, shelf, choice),
    }
}

/// Random steps of two workers that seldom leave and take in notices, and of a loader that closes and collects the
/// first four shelves.
fn random_steps<R: Abort>(rt: &R, scene: &mut Scene, beside: &mut Beside) -> Result<(), Fail> {
    let mut random = 19u64;
    for _round in 0..2000u32 {
        random = random
            .wrapping_mul(6364136223846793005)
            .wrapping_add(1442695040888963407);
        let same = one_step(scene, beside, random)?;
        assert!(rt; same && words_agree(&scene.table, &beside.core));
    }
    Ok(())
}

fn random_steps_at_new_shelves<R: Abort>(
    rt: &R,
    alloc: Global,
    beside: &mut Beside,
) -> Result<(), Fail> {
    match Scene::new(alloc) {
        Ok(mut scene) => random_steps(rt, &mut scene, beside),
        Err(refused) => Err(refused.into()),
    }
}

#[test]
fn random_steps_beside_the_state_machine(rt: HostRuntime) -> Result<(), Fail> {
    let mut beside = Beside {
        core: Core::new(rt.alloc())?,
        rare: Rare::default(),
    };
    random_steps_at_new_shelves(&rt, rt.alloc(), &mut beside)?;
    assert!(&rt; beside.rare.is_seen());
    Ok(())
}
