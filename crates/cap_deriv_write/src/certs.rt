//! JSON values of certificates.
ghost use Rattle.std.specs.Prelude.{◌≡◌, IfOk};
ghost use Rattle.std.specs.List.{AllByRecursion};
ghost use Rattle.serde_json.specs.View.{view};
ghost use Rattle.cap_deriv_write.specs.Bounds.{PairFits, CertFits, MarkFits};
ghost use Rattle.cap_deriv_write.specs.Forms.{pair_form, pairs_form, cert_form, certs_form};
ghost use Rattle.cap_deriv_write.specs.Forms.{mark_form, marks_form};

use crate::values::{decimal, headed_one, headed_three};
use cap_farkas::Cert;
use serde_json::{Value, json};
use std::alloc::{AllocError, Global};

// A row and its multiplier.
fn pair(alloc: Global, pair: (u32, i128)) -> Result<Value, AllocError>
    ensures value { IfOk result (λ v. view v ≡ pair_form pair) }
    ensures fits { IfOk result (λ v. PairFits pair) }
{
    let (row, multiplier) = pair;
    let multiplier = decimal(alloc, multiplier)?;
    json!(in alloc; [row, multiplier])
}

fn pairs(alloc: Global, all: &[(u32, i128)]) -> Result<Value, AllocError>
    ensures value { IfOk result (λ v. view v ≡ pairs_form all.now) }
    ensures fits { IfOk result (λ v. AllByRecursion PairFits all.now) }
{
    let mut items = Vec::new(alloc);
    for one in all {
        items.push(pair(alloc, *one)?)?;
    }
    Ok(Value::Array(items))
}

/// A certificate: a leaf, or a split of a row.
pub(crate) fn cert(alloc: Global, cert: &Cert) -> Result<Value, AllocError>
    ensures value { IfOk result (λ v. view v ≡ cert_form cert.now) }
    ensures fits { IfOk result (λ v. CertFits cert.now) }
{
    match cert {
        Cert::Leaf(all) => headed_one(alloc, "leaf", pairs(alloc, all.as_slice())?),
        Cert::Split(row, below, above) => headed_three(
            alloc,
            "split",
            Value::from(*row),
            pairs(alloc, below.as_slice())?,
            pairs(alloc, above.as_slice())?,
        ),
    }
}

/// An array of certificates.
pub(crate) fn certs(alloc: Global, all: &[Cert]) -> Result<Value, AllocError>
    ensures value { IfOk result (λ v. view v ≡ certs_form all.now) }
    ensures fits { IfOk result (λ v. AllByRecursion CertFits all.now) }
{
    let mut items = Vec::new(alloc);
    for one in all {
        items.push(cert(alloc, one)?)?;
    }
    Ok(Value::Array(items))
}

// The number 0, or a certificate.
fn mark(alloc: Global, mark: &Option<Cert>) -> Result<Value, AllocError>
    ensures value { IfOk result (λ v. view v ≡ mark_form mark.now) }
    ensures fits { IfOk result (λ v. MarkFits mark.now) }
{
    match mark {
        Some(one) => cert(alloc, one),
        None => Ok(Value::from(0u32)),
    }
}

/// An array of marks.
pub(crate) fn marks(alloc: Global, all: &[Option<Cert>]) -> Result<Value, AllocError>
    ensures value { IfOk result (λ v. view v ≡ marks_form all.now) }
    ensures fits { IfOk result (λ v. AllByRecursion MarkFits all.now) }
{
    let mut items = Vec::new(alloc);
    for one in all {
        items.push(mark(alloc, one)?)?;
    }
    Ok(Value::Array(items))
}
