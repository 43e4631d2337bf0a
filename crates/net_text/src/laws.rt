// What network files mean, as laws of the definitions.

ghost use Rattle.leaf_expr.specs.ReadLaws.{FoundLaw, OnlyLaw, OneReadingLaw, TokenFaultLaw, OneFaultLaw};
ghost use Rattle.net_text.specs.Grammar.{Version, networks};
ghost use Rattle.net_text.specs.FileLaws.{ReadFileLaw, OneFileLaw, FileFaultLaw, LeafMeaningLaw, OlderNetworkLaw, NothingNewLaw, PrintedFileLaw};
ghost use Rattle.net_text.specs.CertificatePrinting.{PrintedCertificateLaw};
ghost use Rattle.net_text.specs.CertificateLaws.{ReadCertificateLaw, OneCertificateLaw, CertificateFaultLaw};
ghost use Rattle.net_text.specs.CertificateRows.{CertificateRows, LawRows, CertificateFaultRows};
ghost use Rattle.net_text.specs.FileRows.{CellRows, NetworkRows, SugarRows, IdentityIs, ConstantIs, SecondIs, BesideIs, FanOutIs, NeverIs, NowIs, EdgeIs, AccumHoldByIs, NewRows, NewFaultRows, FileFaultRows, NumberFaultRows, MembersFaultRows};

/// Reading a network, or what stands inside one, at the front of tokens: what is read is in the
/// grammar, what is in the grammar is read whatever follows, there is one reading, a fault is
/// answered if and only if it is the first token that doesn't fit, by its place and kind, and there
/// is one fault, in each version. Types and expressions inside networks are those that they are by
/// themselves. A network of the first version is the same one in the second, and none of the forms
/// that are new there is in it.
pub fn reading_laws()
    ensures found { (v : Version) → FoundLaw (networks v) }
    ensures only { (v : Version) → OnlyLaw (networks v) }
    ensures one { (v : Version) → OneReadingLaw (networks v) }
    ensures fault { (v : Version) → TokenFaultLaw (networks v) }
    ensures one_fault { (v : Version) → OneFaultLaw (networks v) }
    ensures leaves { LeafMeaningLaw }
    ensures older { OlderNetworkLaw }
    ensures nothing_new { NothingNewLaw }
{}

/// Reading a whole file: what is read is a network file, a network file is read, it has one
/// reading, and a fault is answered if and only if it tells why the bytes are no file.
pub fn file_laws()
    ensures files { ReadFileLaw }
    ensures one_file { OneFileLaw }
    ensures fault { FileFaultLaw }
{}

/// What is printed is read back, within the limits of files.
pub fn printing_laws()
    ensures networks { PrintedFileLaw }
    ensures certificates { PrintedCertificateLaw }
{}

/// Each form of networks, read once, and refusals by place and kind, in both versions.
pub fn grammar_rows()
    ensures cells { CellRows }
    ensures networks { NetworkRows }
    ensures sugar { SugarRows }
    ensures faults { FileFaultRows }
    ensures numbers { NumberFaultRows }
    ensures members { MembersFaultRows }
    ensures new { NewRows }
    ensures new_faults { NewFaultRows }
{}

/// Each sugar as the forms that it stands for, whatever its parts are.
pub fn sugar_laws()
    ensures identity { IdentityIs }
    ensures constant { ConstantIs }
    ensures second { SecondIs }
    ensures beside { BesideIs }
    ensures fan_out { FanOutIs }
    ensures never { NeverIs }
    ensures now { NowIs }
    ensures edge { EdgeIs }
    ensures accum_hold_by { AccumHoldByIs }
{}

/// Reading a whole certificate: what is read is a certificate file, a certificate file is read, it
/// has one reading, and a fault is answered if and only if it tells why the bytes are no such file.
pub fn certificate_laws()
    ensures certificates { ReadCertificateLaw }
    ensures one_certificate { OneCertificateLaw }
    ensures fault { CertificateFaultLaw }
{}

/// Certificates that are read, the first and the last law of each kind, and refusals by place and
/// kind.
pub fn certificate_rows()
    ensures certificates { CertificateRows }
    ensures laws { LawRows }
    ensures faults { CertificateFaultRows }
{}
