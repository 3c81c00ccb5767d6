// The steps that a line takes, one after another, and its answer.
ghost use Rattle.std.specs.Prelude.{◌≡◌, ◌<◌, ℕ, List as Bytes, length, position, IfOk};
ghost use Rattle.std.specs.Option.{option_map};
ghost use Rattle.dl_base.specs.declared.file.FileWhat.{FileWhat as What};
ghost use Rattle.fs_command.specs.Commands.{asked as asks, read_of_path};
ghost use Rattle.dl_token.specs.Tokens.{read_token};
ghost use Rattle.dl_base.specs.Answers.{is_committed, is_refused};
ghost use Rattle.meaning_script.specs.Expansion.{meant, expansion, IsRead, behind_statement, behind_prepare, behind_decide, behind_finish, no_value, is_begun, is_archived, one, alone, is_alone, statement, step_from, goes_on, first_step, commit_behind, commit, session, read_of, file, archive, backup_from, backup_behind, backup, crash_both, system};

use dl_base::{
    Answer, FileCmd, FileWhat, LinkNo, List, Memory, Name, Path, Phase, Refusal, Step, Stmt, Text,
    is_path,
};
use dl_token::read_token;
use fs_command::FileLine;
use meaning_script::{ActorState, Line, Next, Order, Sentence};
use std::alloc::Global;

/// What a line comes to behind the answers of its steps so far. The actor's state, and the links whose copies are pending, are
/// those of the moment of the call; for a read of `$NAME` the actor's `last` is that of the session named.
///
/// A statement outside a transaction is Begin, Statement, Prepare, Decide and Finish; Rollback follows where Statement or Prepare
/// is refused, nothing where Decide drops the transaction; its answer is the first refusal, or else the Statement's. COMMIT is
/// those of Prepare, Decide and Finish that the phase still needs, up to the first refusal or drop.
#[tactic(auto, unfolding(meaning_script::specs::Expansion::expansion))]
pub fn expand<'a>(
    alloc: Global,
    line: &'a Line,
    actor: &ActorState,
    answers: &List<Answer>,
    pending: &[LinkNo],
) -> Result<Next<'a>, Memory>
    requires { IsRead line.now }
    ensures exact { IfOk result (λ n. meant n ≡ expansion line.entry.now actor.now answers.now pending.now) }
{
    match line {
        Line::Nothing => Ok(Next::Nothing),
        Line::Session(_, sentence) => Ok(session(actor, sentence, answers.as_slice())),
        Line::File(line) => file(alloc, actor, line, answers.as_slice()),
        Line::System(order) => Ok(system(*order, answers.as_slice(), pending)),
        Line::Bad(Refusal::BadLine(place)) => Ok(refused(Refusal::BadLine(*place))),
        Line::Bad(Refusal::Syntax(place)) => Ok(refused(Refusal::Syntax(*place))),
        Line::Bad(_) => Ok(Next::Nothing),
    }
}

fn refused<'a>(why: Refusal) -> Next<'a>
    ensures { result ≡ Next.Answered (Answer.Refused why) }
{
    Next::Answered(Answer::Refused(why))
}

fn is_refused(answer: &Answer) -> bool
    ensures { result ≡ is_refused answer.now }
{
    matches!(answer, Answer::Refused(_))
}

fn is_committed(answer: &Answer) -> bool
    ensures { result ≡ is_committed answer.now }
{
    matches!(answer, Answer::Committed(_))
}

fn is_begun(answer: &Answer) -> bool
    ensures { result ≡ is_begun answer.now }
{
    matches!(answer, Answer::Begun(_))
}

fn is_archived(answer: &Answer) -> bool
    ensures { result ≡ is_archived answer.now }
{
    matches!(answer, Answer::Archived(_))
}

// A line of one step.
fn one<'a>(step: Step, answers: &[Answer]) -> Next<'a>
    ensures { meant result ≡ one step answers.now }
{
    if answers.is_empty() {
        Next::Do(step)
    } else {
        drop(step);
        Next::Given(0)
    }
}

#[tactic(auto, unfolding(meaning_script::specs::Expansion::session))]
fn session<'a>(actor: &ActorState, sentence: &'a Sentence, answers: &[Answer]) -> Next<'a>
    ensures { meant result ≡ session actor.now sentence.entry.now answers.now }
{
    match sentence {
        Sentence::Sql(Stmt::Begin) => one(Step::Begin(actor.session), answers),
        Sentence::Sql(Stmt::Commit) => commit(actor, answers),
        Sentence::Sql(Stmt::Rollback) => one(Step::Rollback(actor.session), answers),
        Sentence::Sql(stmt) => statement(actor, stmt, answers),
        Sentence::Prepare => one(Step::Prepare(actor.session), answers),
        Sentence::Decide => one(Step::Decide(actor.session), answers),
        Sentence::Finish => one(Step::Finish(actor.session), answers),
    }
}

// A statement, in a transaction or outside one.
#[tactic(auto, unfolding(meaning_script::specs::Expansion::statement))]
fn statement<'a>(actor: &ActorState, stmt: &'a Stmt, answers: &[Answer]) -> Next<'a>
    ensures { meant result ≡ statement actor.now stmt.entry.now answers.now }
{
    if is_alone(actor, answers) {
        return alone(actor.session, stmt, answers);
    }
    if answers.is_empty() {
        return Next::Statement(actor.session, stmt);
    }
    Next::Given(0)
}

fn is_alone(actor: &ActorState, answers: &[Answer]) -> bool
    ensures { result ≡ is_alone actor.now.phase answers.now }
{
    match answers {
        [] => actor.phase.is_none(),
        [first, ..] => is_begun(first),
    }
}

#[tactic(auto, unfolding(meaning_script::specs::Expansion::alone))]
fn alone<'a>(number: u32, stmt: &'a Stmt, answers: &[Answer]) -> Next<'a>
    ensures { meant result ≡ alone number stmt.entry.now answers.now }
{
    match answers {
        [] => Next::Do(Step::Begin(number)),
        [_] => Next::Statement(number, stmt),
        [_, said] => behind_statement(number, said),
        [_, said, prepared] => behind_prepare(number, said, prepared),
        [_, _, prepared, decided] => behind_decide(number, prepared, decided),
        [_, _, _, _, finished, ..] => behind_finish(finished),
    }
}

#[tactic(auto, unfolding(meaning_script::specs::Expansion::behind_statement))]
fn behind_statement<'a>(number: u32, said: &Answer) -> Next<'a>
    ensures { meant result ≡ behind_statement number said.now }
{
    if is_refused(said) {
        return Next::Do(Step::Rollback(number));
    }
    Next::Do(Step::Prepare(number))
}

#[tactic(auto, unfolding(meaning_script::specs::Expansion::behind_prepare))]
fn behind_prepare<'a>(number: u32, said: &Answer, prepared: &Answer) -> Next<'a>
    ensures { meant result ≡ behind_prepare number said.now prepared.now }
{
    if is_refused(said) {
        return Next::Given(1);
    }
    if is_refused(prepared) {
        return Next::Do(Step::Rollback(number));
    }
    Next::Do(Step::Decide(number))
}

#[tactic(auto, unfolding(meaning_script::specs::Expansion::behind_decide))]
fn behind_decide<'a>(number: u32, prepared: &Answer, decided: &Answer) -> Next<'a>
    ensures { meant result ≡ behind_decide number prepared.now decided.now }
{
    if is_refused(prepared) {
        return Next::Given(2);
    }
    if is_refused(decided) {
        return Next::Given(3);
    }
    if is_committed(decided) {
        return Next::Do(Step::Finish(number));
    }
    Next::Given(1)
}

fn behind_finish<'a>(finished: &Answer) -> Next<'a>
    ensures { meant result ≡ behind_finish finished.now }
{
    if is_refused(finished) {
        return Next::Given(4);
    }
    Next::Given(1)
}

// COMMIT.
#[tactic(auto, unfolding(meaning_script::specs::Expansion::commit))]
fn commit<'a>(actor: &ActorState, answers: &[Answer]) -> Next<'a>
    ensures { meant result ≡ commit actor.now answers.now }
{
    match answers.last() {
        None => Next::Do(first_step(actor.session, actor.phase)),
        Some(last) => commit_behind(actor.session, actor.phase, answers, last),
    }
}

fn first_step(number: u32, phase: Option<Phase>) -> Step
    ensures { result ≡ first_step number (step_from number phase) }
{
    match step_from(number, phase) {
        Some(step) => step,
        None => Step::Prepare(number),
    }
}

#[tactic(auto, unfolding(meaning_script::specs::Expansion::commit_behind))]
fn commit_behind<'a>(
    number: u32,
    phase: Option<Phase>,
    answers: &[Answer],
    last: &Answer,
) -> Next<'a>
    requires { 0 < length answers.now }
    ensures { meant result ≡ commit_behind number phase answers.now last.now }
{
    if is_refused(last) {
        return Next::Given(answers.len() - 1);
    }
    goes_on(step_from(number, phase), answers)
}

fn step_from(number: u32, phase: Option<Phase>) -> Option<Step>
    ensures { result ≡ step_from number phase }
{
    match phase {
        Some(Phase::Active) => Some(Step::Prepare(number)),
        Some(Phase::Prepared) => Some(Step::Decide(number)),
        Some(Phase::Decided) => Some(Step::Finish(number)),
        _ => None,
    }
}

#[tactic(auto, unfolding(meaning_script::specs::Expansion::goes_on))]
fn goes_on<'a>(step: Option<Step>, answers: &[Answer]) -> Next<'a>
    ensures { meant result ≡ goes_on step answers.now }
{
    match step {
        Some(step) => Next::Do(step),
        None => match commit_in(answers) {
            Some(at) => Next::Given(at),
            None => Next::Answered(Answer::Done),
        },
    }
}

// The number, from 0, of the first answer that tells a commit.
fn commit_in(answers: &[Answer]) -> Option<usize>
    ensures { result ≡ position is_committed answers.now }
{
    answers.iter().position(|a| is_committed(a))
}

#[tactic(auto, unfolding(meaning_script::specs::Expansion::file))]
fn file<'a>(
    alloc: Global,
    actor: &ActorState,
    line: &FileLine,
    answers: &[Answer],
) -> Result<Next<'a>, Memory>
    ensures { IfOk result (λ n. meant n ≡ file actor.now.last line.now answers.now) }
{
    if !answers.is_empty() {
        return Ok(Next::Given(0));
    }
    match line {
        FileLine::Command(cmd) => Ok(Next::Do(Step::File(copy_of(cmd)?))),
        FileLine::ReadOf(user, name) => read_of(alloc, user, name, &actor.last),
    }
}

fn copy_of(cmd: &FileCmd) -> Result<FileCmd, Memory>
    ensures { IfOk result (λ made. made ≡ cmd.now) }
{
    let what = what_of(&cmd.what)?;
    Ok(FileCmd {
        user: cmd.user.copy()?,
        what,
    })
}

fn what_of(what: &FileWhat) -> Result<FileWhat, Memory>
    ensures { IfOk result (λ made. made ≡ what.now) }
{
    match what {
        FileWhat::Create(path, text) => Ok(FileWhat::Create(path.copy()?, text.copy()?)),
        FileWhat::Write(path, text) => Ok(FileWhat::Write(path.copy()?, text.copy()?)),
        FileWhat::Delete(path) => Ok(FileWhat::Delete(path.copy()?)),
        FileWhat::Rename(path, to) => Ok(FileWhat::Rename(path.copy()?, to.copy()?)),
        FileWhat::Chmod(path, on) => Ok(FileWhat::Chmod(path.copy()?, *on)),
        FileWhat::Read(path, token) => Ok(FileWhat::Read(path.copy()?, *token)),
        FileWhat::List => Ok(FileWhat::List),
    }
}

// A read of what `$NAME` stands for.
#[tactic(auto, unfolding(meaning_script::specs::Expansion::read_of))]
fn read_of<'a>(
    alloc: Global,
    user: &Name,
    name: &Name,
    last: &Option<Text>,
) -> Result<Next<'a>, Memory>
    ensures { IfOk result (λ n. meant n ≡ read_of user.now name.now last.now) }
{
    let Some(text) = last else {
        return no_value(name);
    };
    match source_of(alloc, text.bytes())? {
        Some(what) => Ok(Next::Do(Step::File(FileCmd {
            user: user.copy()?,
            what,
        }))),
        None => no_value(name),
    }
}

fn no_value<'a>(name: &Name) -> Result<Next<'a>, Memory>
    ensures { IfOk result (λ n. meant n ≡ no_value name.now) }
{
    Ok(refused(Refusal::NoValue(name.copy()?)))
}

// The read of a text that is a path, or a path with a token.
fn source_of(alloc: Global, text: &[u8]) -> Result<Option<FileWhat>, Memory>
    ensures { IfOk result (λ what. (user : Bytes ℕ) → option_map (λ (w : What). asks user w) what ≡ read_of_path user text.now (read_token text.now)) }
{
    if let Some((path, token)) = read_token(alloc, text)? {
        return Ok(Some(FileWhat::Read(path, Some(token))));
    }
    if !is_path(text) {
        return Ok(None);
    }
    Ok(Some(FileWhat::Read(Path::of(alloc, text)?, None)))
}

// `! archive`.
#[tactic(auto, unfolding(meaning_script::specs::Expansion::archive))]
fn archive<'a>(done: usize, pending: &[LinkNo]) -> Next<'a>
    ensures { meant result ≡ archive done pending.now }
{
    match pending {
        [] => Next::Answered(Answer::Archived(done as u64)),
        [first, ..] => Next::Do(Step::Archive(*first)),
    }
}

// The next step of `! backup`.
#[tactic(auto, unfolding(meaning_script::specs::Expansion::backup_from))]
fn backup_from<'a>(pending: &[LinkNo]) -> Next<'a>
    ensures { meant result ≡ backup_from pending.now }
{
    match pending {
        [] => Next::Do(Step::Backup),
        [first, ..] => Next::Do(Step::Archive(*first)),
    }
}

// `! backup`.
#[tactic(auto, unfolding(meaning_script::specs::Expansion::backup))]
fn backup<'a>(answers: &[Answer], pending: &[LinkNo]) -> Next<'a>
    ensures { meant result ≡ backup answers.now pending.now }
{
    match answers.last() {
        None => backup_from(pending),
        Some(last) => backup_behind(answers, pending, last),
    }
}

#[tactic(auto, unfolding(meaning_script::specs::Expansion::backup_behind))]
fn backup_behind<'a>(answers: &[Answer], pending: &[LinkNo], last: &Answer) -> Next<'a>
    requires { 0 < length answers.now }
    ensures { meant result ≡ backup_behind answers.now pending.now last.now }
{
    if is_archived(last) {
        return backup_from(pending);
    }
    Next::Given(answers.len() - 1)
}

#[tactic(auto, unfolding(meaning_script::specs::Expansion::crash_both))]
fn crash_both<'a>(answers: &[Answer]) -> Next<'a>
    ensures { meant result ≡ crash_both answers.now }
{
    match answers {
        [] => Next::Do(Step::CrashDatabase),
        [_] => Next::Do(Step::CrashManager),
        [_, _] => Next::Do(Step::Resolve),
        _ => Next::Given(2),
    }
}

#[tactic(auto, unfolding(meaning_script::specs::Expansion::system))]
fn system<'a>(order: Order, answers: &[Answer], pending: &[LinkNo]) -> Next<'a>
    ensures { meant result ≡ system order answers.now pending.now }
{
    match order {
        Order::Tick(seconds) => one(Step::Tick(seconds), answers),
        Order::Archive => archive(answers.len(), pending),
        Order::Backup => backup(answers, pending),
        Order::Restore(target) => one(Step::Restore(target), answers),
        Order::CrashManager => one(Step::CrashManager, answers),
        Order::CrashDatabase => one(Step::CrashDatabase, answers),
        Order::CrashBoth => crash_both(answers),
        Order::Resolve => one(Step::Resolve, answers),
    }
}
