// The core, for C programs that keep a campaign. Each call is the one function that its body calls, with its outcome as programs in C get it.
ghost use Rattle.std.specs.Prelude.{◌≡◌, length};
ghost use Rattle.sha256.specs.Sha256.{sha256};
ghost use Rattle.answer.specs.Buffer.{put_answers};
ghost use Rattle.shelf.specs.Form.{shelf_in_form};
ghost use Rattle.table.specs.Form.{in_form};
ghost use Rattle.table.specs.Fresh.{fresh_answer, fresh_in};
ghost use Rattle.admission.specs.Admission.{admission, admitted};
ghost use Rattle.campaigns.specs.Arriving.{listed, arrival};
ghost use Rattle.take_back.specs.TakingBack.{taking_back, taken_back};
ghost use Rattle.interpret.specs.Interpretation.{interpretation, marked, recorded};
ghost use Rattle.retire.specs.Retiring.{retiring, retired_table, retired_records};
ghost use Rattle.join.specs.Join.{join_answer, joined, copied};
ghost use Rattle.watch.specs.Forks.{forks};
ghost use Rattle.watch.specs.Ancestors.{ancestors};
ghost use Rattle.build.specs.Building.{building, built};
ghost use Rattle.run.specs.Run.{site_after, site_answers};
ghost use Rattle.run.specs.Encoding.{calls_in};

use answer::Answer;
use campaigns::ArrivalAnswer;
use watch::{AncestorPlaces, ForkedSites};

// Makes a lent buffer the empty table of a setup.
#[unsafe(no_mangle)]
pub extern "C" fn gt_fresh(sites: u8, owners: &[u8], table: &mut [u8]) -> Answer
    ensures value { result ≡ fresh_answer (record { sites = sites; owners = owners.now }) table.old }
    ensures table_after { table.new ≡ fresh_in (record { sites = sites; owners = owners.now }) table.old }
{
    table::fresh_in(sites, owners, table).into()
}

// Whether a lent buffer is a table in form.
#[unsafe(no_mangle)]
pub extern "C" fn gt_in_form(table: &[u8]) -> bool
    ensures { result ≡ in_form table.now }
{
    table::in_form(table)
}

// Puts a block at the table's next place, and answers with that place.
#[unsafe(no_mangle)]
pub extern "C" fn gt_admit(table: &mut [u8], block: &[u8], verdict: u8) -> Answer
    ensures value { result ≡ admission sha256 table.old block.now verdict }
    ensures table_after { table.new ≡ admitted sha256 table.old block.now verdict }
{
    admission::admit(table, block, verdict).into()
}

// Writes the records of a place and marks the place interpreted.
#[unsafe(no_mangle)]
pub extern "C" fn gt_interpret(table: &mut [u8], place: usize, records: &mut [u16]) -> Answer
    ensures value { result ≡ interpretation table.old records.old place }
    ensures table_after { table.new ≡ marked table.old records.old place }
    ensures records_after { records.new ≡ recorded table.old records.old place }
{
    interpret::interpret(table, place, records).into()
}

// Takes the block at place 0 out of the table, and moves all other places and their records down by one.
#[unsafe(no_mangle)]
pub extern "C" fn gt_retire(table: &mut [u8], records: &mut [u16]) -> Answer
    ensures value { result ≡ retiring table.old records.old }
    ensures table_after { table.new ≡ retired_table table.old records.old }
    ensures records_after { records.new ≡ retired_records table.old records.old }
{
    retire::retire(table, records).into()
}

// Takes the block at the last place out of the table, as if it had not been admitted.
#[unsafe(no_mangle)]
pub extern "C" fn gt_take_back(table: &mut [u8]) -> Answer
    ensures value { result ≡ taking_back table.old }
    ensures table_after { table.new ≡ taken_back table.old }
{
    take_back::take_back(table).into()
}

// The sites with two held blocks of one sequence number.
#[unsafe(no_mangle)]
pub extern "C" fn gt_forks(table: &[u8]) -> ForkedSites
    ensures { result ≡ forks table.now }
{
    watch::forks(table).into()
}

// All ancestors of a place, itself left out.
#[unsafe(no_mangle)]
pub extern "C" fn gt_ancestors(table: &[u8], place: usize) -> AncestorPlaces
    ensures { result ≡ ancestors table.now place }
{
    watch::ancestors(table, place).into()
}

// Writes a site's next block to the front of the output, and answers with its length.
#[unsafe(no_mangle)]
pub extern "C" fn gt_build(table: &[u8], site: u8, requests: &[u8], output: &mut [u8]) -> Answer
    ensures value { result ≡ building table.now site requests.now output.old }
    ensures output_after { output.new ≡ built table.now site requests.now output.old }
{
    build::build(table, site, requests, output).into()
}

// Runs an encoded list of calls, and answers how many there were; their answers go to the buffer, as far as they fit.
#[unsafe(no_mangle)]
pub extern "C" fn gt_replay(
    table: &mut [u8],
    records: &mut [u16],
    calls: &[u8],
    answers: &mut [u64],
) -> usize
    ensures value { result ≡ length (calls_in calls.now) }
    ensures table_after { table.new ≡ (site_after sha256 (record { table = table.old; records = records.old }) (calls_in calls.now)).table }
    ensures records_after { records.new ≡ (site_after sha256 (record { table = table.old; records = records.old }) (calls_in calls.now)).records }
    ensures answers_after { answers.new ≡ put_answers answers.old 0 (site_answers sha256 (record { table = table.old; records = records.old }) (calls_in calls.now)) }
{
    run::replay(table, records, calls, answers)
}

// Whether a lent buffer is a shelf in form.
#[unsafe(no_mangle)]
pub extern "C" fn gt_shelf_in_form(shelf: &[u8]) -> bool
    ensures { result ≡ shelf_in_form shelf.now }
{
    shelf::in_form(shelf)
}

// A block arrives for a campaign: it is admitted, or waits on the shelf, or is refused. After an admission the campaign's waiting blocks are tried.
#[unsafe(no_mangle)]
pub extern "C" fn gt_arrive(
    table: &mut [u8],
    shelf: &mut [u8],
    campaign: u8,
    block: &[u8],
    verdict: u8,
    outcomes: &mut [u64],
) -> ArrivalAnswer
    ensures answer_value { result.answer ≡ (arrival sha256 table.old shelf.old campaign block.now verdict (length outcomes.old)).answer }
    ensures ended_value { result.ended ≡ length (listed (arrival sha256 table.old shelf.old campaign block.now verdict (length outcomes.old))) }
    ensures table_after { table.new ≡ (arrival sha256 table.old shelf.old campaign block.now verdict (length outcomes.old)).table }
    ensures shelf_after { shelf.new ≡ (arrival sha256 table.old shelf.old campaign block.now verdict (length outcomes.old)).shelf }
    ensures outcomes_after { outcomes.new ≡ put_answers outcomes.old 0 (listed (arrival sha256 table.old shelf.old campaign block.now verdict (length outcomes.old))) }
{
    campaigns::arrive(table, shelf, campaign, block, verdict, outcomes).into()
}

// Makes one table and one record buffer of two controllers': the left's table and the third buffer.
#[unsafe(no_mangle)]
pub extern "C" fn gt_join<'a>(
    left: &mut [u8],
    right: &[u8],
    left_records: &'a [u16],
    right_records: &'a [u16],
    third: &mut [u16],
) -> Answer
    ensures value { result ≡ join_answer left.old right.now left_records.now right_records.now third.old }
    ensures left_after { left.new ≡ joined left.old right.now left_records.now right_records.now third.old }
    ensures third_after { third.new ≡ copied left.old right.now left_records.now right_records.now third.old }
{
    join::join(left, right, left_records, right_records, third).into()
}
