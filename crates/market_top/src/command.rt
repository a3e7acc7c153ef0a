// The words of the command line.
ghost use Rattle.std.specs.Prelude.{◌≡◌, ◌&&◌, Some, None, IfSome, MatchOption, length, map, string_bytes};
ghost use Rattle.market_top.specs.Command.{asked, command_of, file_words, five_words, gen_words, is_file_word, is_run, made_numbers, one_file, three_words, two_files, word_count};

use mkt_io::number_in;

/// What the words ask for.
#[derive(Clone, Copy)]
pub(crate) enum Command<'a> {
    /// An auction over the file of this name.
    Auction {
        file: &'a str,
    },
    /// The tables of the rules file of this name.
    Check {
        rules: &'a str,
    },
    /// The report of a script that is replayed, by the names of its rules file and its own.
    Replay {
        rules: &'a str,
        script: &'a str,
    },
    /// The sums of a script that is made of a number and has so many orders, under the rules of this name.
    ReplayMade {
        number: u32,
        orders: u32,
        rules: &'a str,
    },
    /// The report of a script that is run by its gateways in threads, by the names of its rules file and its own.
    Run {
        rules: &'a str,
        script: &'a str,
    },
    /// Whether a file is a report under rules, by the names of the rules file and its own.
    Audit {
        rules: &'a str,
        report: &'a str,
    },
    /// The script that is made of a number and has so many orders.
    Gen {
        number: u32,
        orders: u32,
    },
}

/// The words that name files, which stand side by side. None where the words are refused.
#[tactic(auto, unfolding(crate::specs::Command::command_of, crate::specs::Command::one_file, crate::specs::Command::two_files, crate::specs::Command::three_words, crate::specs::Command::gen_words, crate::specs::Command::five_words))]
pub fn file_words(words: &[String]) -> &[String]
    ensures { map string_bytes result.now ≡ file_words (map string_bytes words.now) }
{
    match command_of(words) {
        Some(Command::Auction { .. } | Command::Check { .. }) => &words[1..],
        Some(Command::Replay { .. } | Command::Run { .. } | Command::Audit { .. }) => &words[1..],
        Some(Command::ReplayMade { .. }) => &words[4..],
        Some(Command::Gen { .. }) | None => &words[..0],
    }
}

/// The words are the command `run`, the one that waits.
pub fn is_run(words: &[String]) -> bool
    ensures { result ≡ is_run (command_of (map string_bytes words.now)) }
{
    matches!(command_of(words), Some(Command::Run { .. }))
}

// The command that the words are; none where they are refused. A new command is a line here or in a function of its
// number of words.
#[tactic(auto, unfolding(crate::specs::Command::command_of))]
pub(crate) fn command_of(words: &[String]) -> Option<Command<'_>>
    ensures command { MatchOption result (command_of (map string_bytes words.now) ≡ None) (λ command. command_of (map string_bytes words.now) ≡ Some (asked command)) }
    ensures words { IfSome result (λ command. length words.now ≡ word_count (asked command)) }
{
    match words {
        [name, file] if is_file_word(file.as_str()) => one_file(name.as_str(), file.as_str()),
        [name, first, second] => three_words(name.as_str(), first.as_str(), second.as_str()),
        [name, flag, number, orders, rules] => five_words(
            name.as_str(),
            flag.as_str(),
            number.as_str(),
            orders.as_str(),
            rules.as_str(),
        ),
        _ => None,
    }
}

// The commands over one file.
#[tactic(auto, unfolding(crate::specs::Command::one_file))]
fn one_file<'a>(name: &str, file: &'a str) -> Option<Command<'a>>
    ensures command { MatchOption result (one_file name.now file.now ≡ None) (λ command. one_file name.now file.now ≡ Some (asked command)) }
    ensures words { IfSome result (λ command. word_count (asked command) ≡ 2) }
{
    match name {
        "auction" => Some(Command::Auction { file }),
        "check" => Some(Command::Check { rules: file }),
        _ => None,
    }
}

// The commands of three words.
#[tactic(auto, unfolding(crate::specs::Command::three_words))]
fn three_words<'a>(name: &str, first: &'a str, second: &'a str) -> Option<Command<'a>>
    ensures command { MatchOption result (three_words name.now first.now second.now ≡ None) (λ command. three_words name.now first.now second.now ≡ Some (asked command)) }
    ensures words { IfSome result (λ command. word_count (asked command) ≡ 3) }
{
    if name == "gen" {
        return gen_words(first, second);
    }
    if are_file_words(first, second) {
        return two_files(name, first, second);
    }
    None
}

// The commands over two files.
#[tactic(auto, unfolding(crate::specs::Command::two_files))]
fn two_files<'a>(name: &str, first: &'a str, second: &'a str) -> Option<Command<'a>>
    ensures command { MatchOption result (two_files name.now first.now second.now ≡ None) (λ command. two_files name.now first.now second.now ≡ Some (asked command)) }
    ensures words { IfSome result (λ command. word_count (asked command) ≡ 3) }
{
    match name {
        "replay" => Some(Command::Replay {
            rules: first,
            script: second,
        }),
        "run" => Some(Command::Run {
            rules: first,
            script: second,
        }),
        "audit" => Some(Command::Audit {
            rules: first,
            report: second,
        }),
        _ => None,
    }
}

// The command `gen`.
#[tactic(auto, unfolding(crate::specs::Command::gen_words))]
fn gen_words<'a>(number: &str, orders: &str) -> Option<Command<'a>>
    ensures command { MatchOption result (gen_words number.now orders.now ≡ None) (λ command. gen_words number.now orders.now ≡ Some (asked command)) }
    ensures words { IfSome result (λ command. word_count (asked command) ≡ 3) }
{
    match made_numbers(number, orders) {
        Some((number, orders)) => Some(Command::Gen { number, orders }),
        None => None,
    }
}

// The command `replay --gen`.
#[tactic(auto, unfolding(crate::specs::Command::five_words))]
fn five_words<'a>(
    name: &str,
    flag: &str,
    number: &str,
    orders: &str,
    rules: &'a str,
) -> Option<Command<'a>>
    ensures command { MatchOption result (five_words name.now flag.now number.now orders.now rules.now ≡ None)
        (λ command. five_words name.now flag.now number.now orders.now rules.now ≡ Some (asked command)) }
    ensures words { IfSome result (λ command. word_count (asked command) ≡ 5) }
{
    if !(name == "replay" && flag == "--gen" && is_file_word(rules)) {
        return None;
    }
    match made_numbers(number, orders) {
        Some((number, orders)) => Some(Command::ReplayMade {
            number,
            orders,
            rules,
        }),
        None => None,
    }
}

// The number of a script that is made, and how many orders it has.
#[tactic(auto, unfolding(crate::specs::Command::made_numbers))]
fn made_numbers(number: &str, orders: &str) -> Option<(u32, u32)>
    ensures { result ≡ made_numbers number.now orders.now }
{
    let number = number_in(number.as_bytes(), 0, 2_147_483_647);
    let orders = number_in(orders.as_bytes(), 1, 200_000);
    match (number, orders) {
        (Ok(number), Ok(orders)) => Some((number, orders)),
        _ => None,
    }
}

fn are_file_words(first: &str, second: &str) -> bool
    ensures { result ≡ (is_file_word first.now && is_file_word second.now) }
{
    is_file_word(first) && is_file_word(second)
}

// A file's name is not empty and does not begin with a dash.
fn is_file_word(word: &str) -> bool
    ensures { result ≡ is_file_word word.now }
{
    let bytes = word.as_bytes();
    !bytes.is_empty() && bytes[0] != b'-'
}
