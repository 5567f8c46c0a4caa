// Which operation a number names, by its family: what the gate asks of an operation goes by the family alone.
ghost use Rattle.std.specs.Prelude.{◌≡◌, ◌≤◌};
ghost use Rattle.checks.specs.Operations.{operation_of};

// Unlisted is a case like the others and no None: it has its row in the definitions (`gate`, `row_of`), and theorems over all
// operations have it among their cases.
#[derive(Clone, Copy, Debug, PartialEq, Eq)]
pub enum Operation {
    Unlisted,
    // Asks that no session is open.
    Opening,
    // Asks that a session is open.
    InSession(InSession),
    // Asks for a transaction.
    Reader(Reader),
    // Asks for one that writes.
    Writer(Writer),
}

#[derive(Clone, Copy, Debug, PartialEq, Eq)]
pub enum InSession {
    CloseSession,
    OpenRepository,
    CloseRepository,
    StartReadWrite,
    StartReadOnly,
    Commit,
    Abort,
    EndCommit,
    EndAbort,
    StartRecording,
    StopRecording,
    StorageFault,
    IsSubtype,
}

#[derive(Clone, Copy, Debug, PartialEq, Eq)]
pub enum Reader {
    ReadOnlyAccess,
    EndAccess,
    Get,
    Test,
}

#[derive(Clone, Copy, Debug, PartialEq, Eq)]
pub enum Writer {
    CreateModel,
    DeleteModel,
    ReadWriteAccess,
    PromoteModel,
    CreateSchemaInstance,
    DeleteSchemaInstance,
    AddModel,
    RemoveModel,
    CreateInstance,
    DeleteInstance,
    Put,
    Unset,
}

// A number that no case names is unlisted, and the gate has FN_NAVL for it. From 20 to 45 stand those that need a transaction,
// with gaps among them. All single numbers are cases of one `match`, so that it is one jump. By this name and not as
// `From<u32>`: its theorem (`checks_operations_operation_of_one`) and the pages name it.
#[tactic(auto, unfolding(crate::specs::Laws::Operations::the_list))]
pub fn operation_of(number: u32) -> Operation
    ensures { result ≡ operation_of number }
{
    match number {
        1 => Operation::Opening,
        2 => Operation::InSession(InSession::CloseSession),
        3 => Operation::InSession(InSession::OpenRepository),
        4 => Operation::InSession(InSession::CloseRepository),
        5 => Operation::InSession(InSession::StartReadWrite),
        6 => Operation::InSession(InSession::StartReadOnly),
        7 => Operation::InSession(InSession::Commit),
        8 => Operation::InSession(InSession::Abort),
        9 => Operation::InSession(InSession::EndCommit),
        10 => Operation::InSession(InSession::EndAbort),
        11 => Operation::InSession(InSession::StartRecording),
        12 => Operation::InSession(InSession::StopRecording),
        13 => Operation::InSession(InSession::StorageFault),
        20 => Operation::Writer(Writer::CreateModel),
        21 => Operation::Writer(Writer::DeleteModel),
        22 => Operation::Reader(Reader::ReadOnlyAccess),
        23 => Operation::Writer(Writer::ReadWriteAccess),
        24 => Operation::Reader(Reader::EndAccess),
        25 => Operation::Writer(Writer::PromoteModel),
        40 => Operation::Writer(Writer::CreateInstance),
        41 => Operation::Writer(Writer::DeleteInstance),
        42 => Operation::Reader(Reader::Get),
        43 => Operation::Reader(Reader::Test),
        44 => Operation::Writer(Writer::Put),
        45 => Operation::Writer(Writer::Unset),
        46 => Operation::InSession(InSession::IsSubtype),
        30..=33 => of_schema_instances(number),
        20..=45 => Operation::Unlisted,
        _ => Operation::Unlisted,
    }
}

#[tactic(auto, unfolding(crate::specs::Laws::Operations::the_list))]
fn of_schema_instances(number: u32) -> Operation
    requires { (30 ≤ number) × (number ≤ 33) }
    ensures { result ≡ operation_of number }
{
    match number {
        30 => Operation::Writer(Writer::CreateSchemaInstance),
        31 => Operation::Writer(Writer::DeleteSchemaInstance),
        32 => Operation::Writer(Writer::AddModel),
        33 => Operation::Writer(Writer::RemoveModel),
        _ => Operation::Unlisted,
    }
}
