//! Rows of docs/KERNEL.md, by both sides. Made by dev/make-linux-rules.

ghost use Rattle.linux_beside.specs.Rows1.{AllRows1};
ghost use Rattle.linux_beside.specs.Rows2.{AllRows2};
ghost use Rattle.linux_beside.specs.Rows3.{AllRows3};
ghost use Rattle.linux_beside.specs.Rows4.{AllRows4};
ghost use Rattle.linux_beside.specs.Rows5.{AllRows5};
ghost use Rattle.linux_beside.specs.Rows6.{AllRows6};
ghost use Rattle.linux_beside.specs.Rows7.{AllRows7};

/// Rows of docs/KERNEL.md: what the profile answers, and what Linux answers, by version.
pub fn rows_are_computed()
    ensures rows1 { AllRows1 }
    ensures rows2 { AllRows2 }
    ensures rows3 { AllRows3 }
    ensures rows4 { AllRows4 }
    ensures rows5 { AllRows5 }
    ensures rows6 { AllRows6 }
    ensures rows7 { AllRows7 }
{}
