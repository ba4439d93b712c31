//! The command `run`: producers and consumers in threads, and the report of what they did.
ghost use Rattle.std.specs.Prelude.{◌≡◌, ◌≢◌, ◌≤◌, ◌+◌, ◌↔◌, Err, IfErr, IfOk, IsOk, MatchOption, Ok, OnOk, Some, map, vec_len};
ghost use Rattle.std.specs.List.{range_with_len};
ghost use Rattle.mb_script.specs.Vocabulary.{meter};
ghost use Rattle.mb_world.specs.Setups.{plan_in};
ghost use Rattle.mb_mailbox.specs.Gathering.{FullTakesAll, IsGathered, IsReportIn, count_missing};
ghost use Rattle.mb_mailbox.specs.Vocabulary.{IsHubOf, consumer_count, lists_in};
ghost use Rattle.mb_mailbox.specs.declared.crew.WorkFault.TheVariants as work;
ghost use Rattle.mb_program.specs.declared.fault.RunFault.TheVariants.{BadSetup, WriteFault};
ghost use Rattle.mb_program.specs.Vocabulary.{AreFew, IsRun, IsRunReport, fault_after, item_lists, items_of, plan_asked, setup_refused, source_from};

use crate::fault::{NoMemory, RunFault};
use crate::options::Options;
use crate::source::source_of;
use mb_mailbox::{GatherFault, Hub, Mailbox, OpenGate, WorkFault, Worked, work};
use mb_quorum::TableName;
use mb_script::{CountedWrite, report_text, write_all};
use mb_world::{Report, Setup, SetupFault};
use rand_chacha::ChaCha8Rng;
use std::alloc::{AllocError, Allocator};
use std::sync::Wait;
use std::thread::Threads;

/// The setup that the options ask for: a cell for each item, of the shape that they ask for, over the quorum table of
/// bits.
fn setup_of(options: Options) -> Result<Setup, SetupFault>
    ensures refused { MatchOption (setup_refused options) (IsOk result) (λ why. result ≡ Err why) }
    ensures made { IfOk result (λ setup. plan_in setup ≡ plan_asked options) }
    ensures few { OnOk result (AreFew options) }
{
    // A product past 2^64 - 1 is refused too, as every number of cells above 256 is.
    let cells = options.producers.saturating_mul(options.items);
    let setup = Setup::new(
        options.producers,
        options.consumers,
        cells,
        options.pairs,
        TableName::Bits,
    )?;
    Ok(setup.shaped(options.shape))
}

/// The items of producer `p`, in the order in which it puts them.
fn item_list<A: Allocator + Drop>(alloc: A, p: u64, items: u64) -> Result<Vec<u64, A>, AllocError>
    requires { (p ≤ 16) × (items ≤ 256) }
    ensures { IfOk result (λ list. list.items ≡ items_of p items) }
{
    let mut list = Vec::with_capacity(alloc, items as usize)?;
    for i in 0..items {
        list.push(1000 * p + i)?;
    }
    Ok(list)
}

/// The items of all producers, one list for each.
fn item_lists<A: Allocator + Copy + Drop>(
    alloc: A,
    producers: u64,
    items: u64,
) -> Result<Vec<Vec<u64, A>, A>, AllocError>
    requires { (producers ≤ 16) × (items ≤ 256) }
    ensures lists { IfOk result (λ lists. lists_in lists.items ≡ item_lists producers items) }
    ensures count { IfOk result (λ lists. vec_len lists ≡ producers) }
{
    let mut lists = Vec::with_capacity(alloc, producers as usize)?;
    for p in 0..producers {
        lists.push(item_list(alloc, p, items)?)?;
    }
    Ok(lists)
}

/// The sources of the consumers' random words, one for each consumer.
fn sources<A: Allocator + Drop>(
    alloc: A,
    seed: u64,
    consumers: u64,
) -> Result<Vec<ChaCha8Rng, A>, AllocError>
    requires { consumers ≤ 64 }
    ensures words { IfOk result (λ rngs.
        rngs.items ≡ map (source_from seed) (range_with_len 0 consumers)) }
    ensures count { IfOk result (λ rngs. vec_len rngs ≡ consumers) }
{
    let mut rngs = Vec::with_capacity(alloc, consumers as usize)?;
    for c in 0..consumers {
        rngs.push(source_of(seed, c as u32))?;
    }
    Ok(rngs)
}

/// What the workers of a run get.
#[derive(Drop)]
pub struct Workload<A: Allocator + Drop> {
    /// The items of each producer, in the order in which it puts them.
    pub lists: Vec<Vec<u64, A>, A>,
    /// The most accesses that one poll makes.
    pub budget: u64,
    /// The source of each consumer's random words.
    pub rngs: Vec<ChaCha8Rng, A>,
}

/// What the workers get under these options: of at most 16 producers, 64 consumers, and 256 items of each producer.
/// `run_threads` passes it to `work`.
pub fn workload_of<A: Allocator + Copy + Drop>(
    alloc: A,
    options: Options,
) -> Result<Workload<A>, NoMemory>
    requires { AreFew options }
    ensures lists { IfOk result (λ load.
        lists_in load.lists.items ≡ item_lists options.producers options.items) }
    ensures producers { IfOk result (λ load. vec_len load.lists ≡ options.producers) }
    ensures budget { IfOk result (λ load. load.budget ≡ options.budget) }
    ensures words { IfOk result (λ load.
        load.rngs.items ≡ map (source_from options.seed) (range_with_len 0 options.consumers)) }
    ensures consumers { IfOk result (λ load. vec_len load.rngs ≡ options.consumers) }
{
    let lists = item_lists(alloc, options.producers, options.items)?;
    let rngs = sources(alloc, options.seed, options.consumers)?;
    Ok(Workload {
        lists,
        budget: options.budget,
        rngs,
    })
}

/// What the workers of a run came to and the run's report, or its fault, which is `NoThread` if a thread was refused.
/// The hub has numbers for all workers and the budget is not 0, so two faults of the workers do not come.
pub fn report_after<A: Allocator + Copy + Drop>(
    alloc: A,
    worked: Result<Worked, WorkFault>,
    mailbox: Mailbox<A>,
    hub: Hub<A>,
) -> Result<(Worked, Report<A>), RunFault>
    requires belongs { IsHubOf mailbox hub }
    requires numbers { worked ≢ Err work.AllGiven }
    requires budget { worked ≢ Err work.BadBudget }
    requires all { IsOk worked → count_missing hub.puts + count_missing hub.records ≡ 0 }
    ensures worked { IfOk result (λ o. worked ≡ Ok o.0) }
    ensures fault { IfErr result (λ e. e ≡ fault_after worked) }
    ensures refusal { (why : SetupFault) → result ≢ Err (BadSetup why) }
    ensures no_device { result ≢ Err WriteFault }
    ensures lists { IfOk result (λ o. IsReportIn mailbox.cells.size.lanes
        (consumer_count mailbox.claims.layout) hub o.1) }
    ensures main_theorem { IfOk result (λ o. IsGathered mailbox hub o.1) }
    ensures full { IfOk result (λ o. FullTakesAll mailbox hub o.1) }
{
    match worked {
        Ok(worked) => match mailbox.gather(alloc, hub) {
            Ok(report) => Ok((worked, report)),
            Err((GatherFault::NoMemory, _, _)) => Err(RunFault::NoMemory),
            Err((GatherFault::Missing(_, _), _, _)) => unreachable!(),
        },
        Err(WorkFault::NoMemory) => Err(RunFault::NoMemory),
        Err(WorkFault::NoThread) => Err(RunFault::NoThread),
        Err(WorkFault::AllGiven | WorkFault::BadBudget) => unreachable!(),
    }
}

/// The report of a mailbox whose producers have put all their items.
fn report_of<A: Allocator + Copy + Drop + Send + Sync, T: Threads + Wait + Sync>(
    alloc: A,
    rt: &T,
    options: Options,
) -> Result<Report<A>, RunFault>
    requires budget { 1 ≤ options.budget }
    ensures report { IfOk result (λ r. IsRunReport options r) }
    ensures refused { (why : SetupFault) → (result ≡ Err (BadSetup why))
        ↔ (setup_refused options ≡ Some why) }
    ensures no_device { result ≢ Err WriteFault }
{
    let setup = setup_of(options)?;
    let Workload {
        lists,
        budget,
        rngs,
    } = workload_of(alloc, options)?;
    let (mailbox, mut hub) = Mailbox::new(alloc, setup)?;
    let worked = work(
        alloc, rt, &mailbox, &mut hub, lists, budget, rngs, &OpenGate,
    );
    let (_, report) = report_after(alloc, worked, mailbox, hub)?;
    Ok(report)
}

/// Lets producers and consumers work in threads, one for each, and writes the report of what they did and nothing else.
///
/// Producer `p` puts `1000 * p + i` for each `i` below the number of items, and ends its lane. The consumers poll until
/// all lanes have ended, each with the random words of its [`source_of`]. There is a cell for each item. More than 256
/// cells are refused, also if their number is past 2^64 - 1.
///
/// The budget has to be at least 1. The whole text is made before the first write. No failed write is tried again. The
/// call may wait for its threads.
///
/// `BadSetup` comes first, then `NoMemory` or `NoThread`, whichever is met first, and then `WriteFault`.
pub fn run_threads<
    A: Allocator + Copy + Drop + Send + Sync,
    T: Threads + Wait + Sync,
    W: CountedWrite,
>(alloc: A, rt: &T, options: Options, writer: &mut W) -> Result<(), RunFault>
    requires budget { 1 ≤ options.budget }
    ensures { IsRun options (meter W.held W.failures) writer.old writer.new result }
{
    let report = report_of(alloc, rt, options)?;
    let text = report_text(alloc, &report)?;
    write_all(writer, text.as_bytes())?;
    Ok(())
}
