//! What kernels answered to recorded traces, which the definitions compute. Made by dev/make-linux-rules.

ghost use Rattle.linux_rules.specs.Linux_6_1.{AllOfLinux_6_1};
ghost use Rattle.linux_rules.specs.Linux_6_12.{AllOfLinux_6_12};
ghost use Rattle.linux_rules.specs.Linux_6_16.{AllOfLinux_6_16};
ghost use Rattle.linux_rules.specs.Linux_6_17.{AllOfLinux_6_17};
ghost use Rattle.linux_rules.specs.Linux_6_18_15.{AllOfLinux_6_18_15};
ghost use Rattle.linux_rules.specs.Linux_6_18.{AllOfLinux_6_18};
ghost use Rattle.linux_rules.specs.Linux_7_2.{AllOfLinux_7_2};

/// The definitions answer the traces of suite/ that stand in specs/Linux_6_1.antt as
/// Linux 6.1.192 did: each call, fault and list.
pub fn linux_6_1_is_as_recorded()
    ensures { AllOfLinux_6_1 }
{}

/// The definitions answer the traces of suite/ that stand in specs/Linux_6_12.antt as
/// Linux 6.12.117 did: each call, fault and list.
pub fn linux_6_12_is_as_recorded()
    ensures { AllOfLinux_6_12 }
{}

/// The definitions answer the traces of suite/ that stand in specs/Linux_6_16.antt as
/// Linux 6.16.12 did: each call, fault and list.
pub fn linux_6_16_is_as_recorded()
    ensures { AllOfLinux_6_16 }
{}

/// The definitions answer the traces of suite/ that stand in specs/Linux_6_17.antt as
/// Linux 6.17.13 did: each call, fault and list.
pub fn linux_6_17_is_as_recorded()
    ensures { AllOfLinux_6_17 }
{}

/// The definitions answer the traces of suite/ that stand in specs/Linux_6_18_15.antt as
/// Linux 6.18.15 did: each call, fault and list.
pub fn linux_6_18_15_is_as_recorded()
    ensures { AllOfLinux_6_18_15 }
{}

/// The definitions answer the traces of suite/ that stand in specs/Linux_6_18.antt as
/// Linux 6.18.44 did: each call, fault and list.
pub fn linux_6_18_is_as_recorded()
    ensures { AllOfLinux_6_18 }
{}

/// The definitions answer the traces of suite/ that stand in specs/Linux_7_2.antt as
/// Linux 7.2.12 did: each call, fault and list.
pub fn linux_7_2_is_as_recorded()
    ensures { AllOfLinux_7_2 }
{}
