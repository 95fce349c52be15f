//! The words of a command.

ghost use Rattle.std.specs.Prelude.{◌≡◌, ◌<◌, ◌≤◌, map, option_map, string_bytes, IfSome};
ghost use Rattle.std.specs.Int.{IsPowerOfTwo};
ghost use Rattle.pg_sync.specs.Words.{HasPlan, HasRows, IsPlan, add_option, buckets_of, command_of, is_input, job_at, job_of, join_of, make_of, mem_of, no_options, options_at, plan_of, read_options, schedule_of, task_in, workers_of};

use decimal_word::number_of;
use row_model::Plan;

/// The words of a join: the names of its inputs and of their keys, and how it is to run.
#[derive(Clone, Copy)]
pub struct JoinWords<'w> {
    pub inner: &'w str,
    pub outer: &'w str,
    pub inner_key: &'w str,
    pub outer_key: &'w str,
    pub plan: Plan,
}

/// What the words ask for.
#[derive(Clone, Copy)]
pub enum Command<'w> {
    /// The join of two inputs.
    Join(JoinWords<'w>),
    /// The script of this name, played.
    Schedule(&'w str),
    /// The join of two tables of `rows` keys each, drawn from `start` on.
    Make { rows: u32, start: u32, workers: u32 },
}

// The options of a join, as far as words give them.
#[derive(Clone, Copy)]
struct OptionWords<'w> {
    inner_key: Option<&'w str>,
    outer_key: Option<&'w str>,
    workers: Option<u32>,
    buckets: Option<u32>,
    mem: Option<u32>,
}

// The number of workers that a word names.
fn workers_of(word: &str) -> Option<u32>
    ensures number { result ≡ workers_of word.now }
    ensures range { IfSome result (λ n. (0 < n) × (n ≤ 16)) }
{
    Some(number_of(word.as_bytes(), 1, 16)? as u32)
}

// The number of buckets that a word names.
fn buckets_of(word: &str) -> Option<u32>
    ensures number { result ≡ buckets_of word.now }
    ensures range { IfSome result (λ n. IsPowerOfTwo n × (n ≤ 262144)) }
{
    let buckets = number_of(word.as_bytes(), 1, 262_144)?;
    if !buckets.is_power_of_two() {
        return None;
    }
    Some(buckets as u32)
}

// The number of rows that a word allows a batch.
fn mem_of(word: &str) -> Option<u32>
    ensures number { result ≡ mem_of word.now }
    ensures range { IfSome result (λ n. (0 < n) × (n ≤ 262144)) }
{
    Some(number_of(word.as_bytes(), 1, 262_144)? as u32)
}

// Whether a word may name an input: it isn't empty and is no option.
fn is_input(word: &str) -> bool
    ensures { result ≡ is_input word.now }
{
    !word.is_empty() && !word.starts_with("--")
}

// How a join with these options is to run.
fn plan_of(given: OptionWords<'_>) -> Plan
    ensures { result ≡ plan_of (options_at given.entry) }
{
    Plan {
        workers: given.workers.unwrap_or(4),
        buckets: given.buckets.unwrap_or(1024),
        mem: given.mem.unwrap_or(65_536),
    }
}

// The options with one more, by its name and its value.
#[tactic(auto, unfolding(crate::specs::Words::add_option))]
fn add_option<'w>(given: OptionWords<'w>, name: &str, value: &'w str) -> Option<OptionWords<'w>>
    requires { IsPlan (plan_of (options_at given)) }
    ensures options { option_map options_at result ≡ add_option (options_at given.entry) name.now value.entry.now }
    ensures plan { IfSome result (λ more. IsPlan (plan_of (options_at more))) }
{
    match name {
        "--inner-key" if given.inner_key.is_none() => Some(OptionWords {
            inner_key: Some(value),
            ..given
        }),
        "--outer-key" if given.outer_key.is_none() => Some(OptionWords {
            outer_key: Some(value),
            ..given
        }),
        "--workers" if given.workers.is_none() => Some(OptionWords {
            workers: Some(workers_of(value)?),
            ..given
        }),
        "--buckets" if given.buckets.is_none() => Some(OptionWords {
            buckets: Some(buckets_of(value)?),
            ..given
        }),
        "--mem" if given.mem.is_none() => Some(OptionWords {
            mem: Some(mem_of(value)?),
            ..given
        }),
        _ => None,
    }
}

// The options that words name, each by a name and a value.
#[tactic(auto, unfolding(crate::specs::Words::read_options))]
fn read_options<'w>(words: &'w [String]) -> Option<OptionWords<'w>>
    ensures options { option_map options_at result ≡ read_options no_options (map string_bytes words.entry.now) }
    ensures plan { IfSome result (λ given. IsPlan (plan_of (options_at given))) }
{
    let mut given = OptionWords {
        inner_key: None,
        outer_key: None,
        workers: None,
        buckets: None,
        mem: None,
    };
    let mut left = words;
    'options: while let [name, value, more @ ..] = left {
        given = add_option(given, name.as_str(), value.as_str())?;
        left = more;
    }
    if left.is_empty() { Some(given) } else { None }
}

// The join of two inputs with these options.
fn job_of<'w>(inner: &'w str, outer: &'w str, given: OptionWords<'w>) -> Option<JoinWords<'w>>
    ensures job { option_map job_at result ≡ job_of inner.entry.now outer.entry.now (options_at given.entry) }
    ensures plan { IfSome result (λ job. job.plan ≡ plan_of (options_at given.entry)) }
{
    Some(JoinWords {
        inner,
        outer,
        inner_key: given.inner_key?,
        outer_key: given.outer_key?,
        plan: plan_of(given),
    })
}

// What the words after `join` ask for.
#[tactic(auto, unfolding(crate::specs::Words::join_of))]
fn join_of<'w>(words: &'w [String]) -> Option<Command<'w>>
    ensures command { option_map task_in result ≡ join_of (map string_bytes words.entry.now) }
    ensures plan { IfSome result HasPlan }
    ensures rows { IfSome result HasRows }
{
    let [inner, outer, options @ ..] = words else {
        return None;
    };
    if !is_input(inner) || !is_input(outer) {
        return None;
    }
    let given = read_options(options)?;
    let job = job_of(inner, outer, given)?;
    Some(Command::Join(job))
}

// What the words after `schedule` ask for.
#[tactic(auto, unfolding(crate::specs::Words::schedule_of))]
fn schedule_of<'w>(words: &'w [String]) -> Option<Command<'w>>
    ensures command { option_map task_in result ≡ schedule_of (map string_bytes words.entry.now) }
    ensures plan { IfSome result HasPlan }
    ensures rows { IfSome result HasRows }
{
    match words {
        [name] if is_input(name) => Some(Command::Schedule(name)),
        _ => None,
    }
}

// What the words after `make` ask for.
#[tactic(auto, unfolding(crate::specs::Words::make_of))]
fn make_of<'w>(words: &'w [String]) -> Option<Command<'w>>
    ensures command { option_map task_in result ≡ make_of (map string_bytes words.entry.now) }
    ensures plan { IfSome result HasPlan }
    ensures rows { IfSome result HasRows }
{
    let [rows, start, workers] = words else {
        return None;
    };
    let rows = number_of(rows.as_bytes(), 1, 65_536)?;
    let start = number_of(start.as_bytes(), 0, 4_294_967_295)?;
    let workers = workers_of(workers)?;
    Some(Command::Make {
        rows: rows as u32,
        start: start as u32,
        workers,
    })
}

/// The command that the words name, None exactly where they name none. The options of a join stand in any
/// order, each once at most; one that isn't given has its default.
#[tactic(auto, unfolding(crate::specs::Words::command_of))]
pub fn read_words<'w>(words: &'w [String]) -> Option<Command<'w>>
    ensures command { option_map task_in result ≡ command_of (map string_bytes words.now) }
    ensures plan { IfSome result HasPlan }
    ensures rows { IfSome result HasRows }
{
    let [verb, words @ ..] = words else {
        return None;
    };
    match verb.as_str() {
        "join" => join_of(words),
        "schedule" => schedule_of(words),
        "make" => make_of(words),
        _ => None,
    }
}
