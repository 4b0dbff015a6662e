//! What a call of the store answers where `sqlite` refuses.
ghost use Rattle.std.specs.Prelude.{◌≡◌, ◌≤◌, ◌↔◌, IsErrOf, IfOk, Decides};
ghost use Rattle.gj_base.specs.Causes.{faults_after};

use gj_base::KeepError;
use sqlite::{Error, ErrorCode};

/// A call inside of a transaction that the connection's owner has begun is refused.
pub const IN_TRANSACTION: Error = Error::SqliteFailure(ErrorCode::TransactionState);

fn is_memory(error: &Error) -> bool
    ensures { Decides result (error.now ≡ Error.SqliteFailure ErrorCode.OutOfMemory) }
{
    matches!(error, Error::SqliteFailure(ErrorCode::OutOfMemory))
}

/// Counts a refusal as a fault, unless it is for want of memory.
pub fn counted<T>(outcome: Result<T, Error>, faults: &mut u64) -> Result<T, KeepError>
    ensures ok { IfOk outcome (λ value. result ≡ Ok value) }
    ensures memory { IsErrOf result KeepError.Memory ↔ (outcome ≡ Err (Error.SqliteFailure ErrorCode.OutOfMemory)) }
    ensures count { faults.new ≡ faults_after faults.old result }
    ensures later { faults.old ≤ faults.new }
{
    match outcome {
        Ok(value) => Ok(value),
        Err(error) => {
            if is_memory(&error) {
                return Err(KeepError::Memory);
            }
            *faults = faults.saturating_add(1);
            Err(KeepError::Failed)
        }
    }
}
