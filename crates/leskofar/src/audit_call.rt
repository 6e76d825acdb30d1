// The call that audits a script of another writer.
ghost use Rattle.std.specs.Prelude.{◌≡◌};
ghost use Rattle.audit.specs.Audit.{Small, audited_value, audit_call};
ghost use Rattle.leskofar.specs.Exports.{audit_answered};

use super::ACCEPTED;
use audit::audit;
use book::Refusal;
use refusal_numbers::number;

// Where no check-sat differs.
const NONE: u32 = 0;

// The answer: 0, and the first check-sat that differs, counted from 1, or 0; or the refusal's number.
#[repr(C)]
#[derive(Clone, Copy)]
pub struct AuditAnswered {
    pub refusal: u32,
    pub differs: u32,
}

fn answer(a: Result<Option<usize>, Refusal>) -> AuditAnswered
    requires { Small (audited_value a) }
    ensures { result ≡ audit_answered (audited_value a) }
{
    match a {
        Ok(None) => AuditAnswered {
            refusal: ACCEPTED,
            differs: NONE,
        },
        Ok(Some(k)) => AuditAnswered {
            refusal: ACCEPTED,
            differs: k as u32,
        },
        Err(r) => AuditAnswered {
            refusal: number(r),
            differs: NONE,
        },
    }
}

#[unsafe(no_mangle)]
pub extern "C" fn leskofar_audit<'a>(
    book: &'a [u8],
    scratch: &mut [u8],
    questions: &'a [u8],
    script: &'a [u8],
) -> AuditAnswered
    ensures answer { result ≡ audit_answered (audit_call book.now scratch.old questions.now script.now).answer }
    ensures scratch { scratch.new ≡ (audit_call book.now scratch.old questions.now script.now).scratch }
{
    answer(audit(book, scratch, questions, script))
}
