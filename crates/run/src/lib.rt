// Calls, a site's run of them, and the ledger that is fed the same calls. Promises: `replay` runs a whole list of calls, call by call; and for every
// lawful setup, record buffer and list of calls of admission, interpretation, retiring and taking back, the site keeps to its ledger
// (specs/Promises.antt says it, proofs/Promises.antt shows it). Assumes nothing.

#![tactic(auto)]

mod call;

ghost use Rattle.std.specs.Prelude.{◌≡◌, length};
ghost use Rattle.sha256.specs.Sha256.{sha256};
ghost use Rattle.answer.specs.Buffer.{put_answers};
ghost use Rattle.run.specs.Run.{site_after, site_answers};
ghost use Rattle.run.specs.Encoding.{calls_in};

// Runs the calls of an encoded list (specs/Encoding.antt), one after the other, and answers how many there were. Their answers are put into
// `answers`, two numbers for each, as far as they fit.
pub fn replay(table: &mut [u8], records: &mut [u16], calls: &[u8], answers: &mut [u64]) -> usize
    ensures value { result ≡ length (calls_in calls.now) }
    ensures table_after { table.new ≡ (site_after sha256 (record { table = table.old; records = records.old }) (calls_in calls.now)).table }
    ensures records_after { records.new ≡ (site_after sha256 (record { table = table.old; records = records.old }) (calls_in calls.now)).records }
    ensures answers_after { answers.new ≡ put_answers answers.old 0 (site_answers sha256 (record { table = table.old; records = records.old }) (calls_in calls.now)) }
{
    let mut count = 0;
    let mut rest = calls;
    while let Some((call, behind)) = call::split_first(rest) {
        answer::put_answer(answers, count, call.run(table, records));
        count += 1;
        rest = behind;
    }
    count
}
