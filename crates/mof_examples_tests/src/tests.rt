//! What the rules say of small texts, the decider's answer and that of the product's reader beside it.
use mof_codec::{MofError, read};
use mof_examples::is_wide;
use std::test::Fail;

const DOCUMENTS: &[(&str, bool)] = &[
    (
        r#"instance of OMI_ConfigurationDocument{Version="2.0.0";};"#,
        true,
    ),
    (r#"instance of OMI_ConfigurationDocument { };"#, true),
    (r#"instance of A{};"#, true),
    (r#"instance of A { X = "ab" "c"; Y = "\x41g"; };"#, true),
    (
        r#"instance of A { X = -9223372036854775808; Y = 18446744073709551615; };"#,
        true,
    ),
    (
        r#"instance of A { X = -9223372036854775808; Y = 18446744073709551615; Z = 18446744073709551616; };"#,
        true,
    ),
    (r#"instance of as as $of {};"#, true),
    (r#"instance of A{X={TRUE,0x1F,101b};};"#, true),
    (
        r#"instance of MSFT_LogResource{ResourceID="[Log]A";Message="m";DependsOn={"[Log]C"};};
instance of MSFT_LogResource{ResourceID="[Log]B";Message="m";DependsOn={};};
instance of MSFT_LogResource{ResourceID="[Log]C";Message="m";DependsOn={};};
instance of OMI_ConfigurationDocument{Version="2.0.0";};"#,
        true,
    ),
    (
        r#"instance of MSFT_LogResource{ResourceID="[Log]A";Message="m";DependsOn={"[Log]B"};};
instance of MSFT_LogResource{ResourceID="[Log]B";Message="m";DependsOn={"[Log]A"};};
instance of OMI_ConfigurationDocument{Version="2.0.0";};"#,
        true,
    ),
    (
        r#"instance of MSFT_LogResource{ResourceID="[File]X";Message="m";DependsOn={};};
instance of OMI_ConfigurationDocument{Version="2.0.0";};"#,
        true,
    ),
    (
        r#"instance of MSFT_ServiceResource{ResourceID="[Service]A";};
instance of MSFT_LogResource{ResourceID="[Log]B";Message="m";DependsOn={"[Service]A"};};
instance of MSFT_EnvironmentResource{ResourceID="[Environment]C";Name="C";Value="1";};
instance of OMI_ConfigurationDocument{Version="2.0.0";};"#,
        true,
    ),
    (
        r#"instance of MSFT_FileDirectoryConfiguration{ResourceID="[File]P";DestinationPath="/p";Contents="x";};
instance of MSFT_FileDirectoryConfiguration{ResourceID="[File]Q";DestinationPath="/p";Contents="y";};
instance of OMI_ConfigurationDocument{Version="2.0.0";};"#,
        true,
    ),
    (
        r#"instance of MSFT_FileDirectoryConfiguration{ResourceID="[File]A";DestinationPath="C:\\a\\..\\b";Contents="c";};"#,
        true,
    ),
    (
        r#"instance of MSFT_WebDownloadManager{ServerURL="http://s/PSDSCPullServer.svc";RegistrationKey="k";ConfigurationNames="Web";};
instance of MSFT_DSCMetaConfiguration{RefreshMode="Pull";};"#,
        true,
    ),
    (
        r#"instance of MSFT_WebDownloadManager as $M1 {
 ResourceID = "[ConfigurationRepositoryWeb]P"; ServerURL = "http://pull:8080/PSDSCPullServer.svc/";
 RegistrationKey = "k"; ConfigurationNames = {"Web"}; };
instance of MSFT_DSCMetaConfiguration as $M2 {
 RefreshMode = "Pull"; RebootNodeIfNeeded = True; ConfigurationDownloadManagers = {$M1}; };
instance of OMI_ConfigurationDocument { Version = "2.0.0"; Name = "Lcm"; };"#,
        true,
    ),
    (
        r#"instance of MSFT_FileDirectoryConfiguration
{
 ResourceID = "[File]A";
 DestinationPath = "/a";
 Contents = "it's";
 ModuleName = "PSDesiredStateConfiguration";
 ModuleVersion = "1.0";
 ConfigurationName = "Demo";
};
instance of OMI_ConfigurationDocument
{
 Version = "2.0.0";
 Name = "Demo";
};
"#,
        true,
    ),
    (
        r#"/*
@TargetNode='localhost'
@GeneratedBy=admin
*/

instance of MSFT_FileDirectoryConfiguration as $MSFT_FileDirectoryConfiguration1ref
{
ResourceID = "[File]A";
 Type = "File";
 DestinationPath = "C:\\Temp\\a.txt";
 SourceInfo = "C:\\demo.ps1::3::5::File";

ModuleVersion = "1.0";

};
instance of OMI_ConfigurationDocument
{
 Version="2.0.0";
 MinimumCompatibleVersion = "1.0.0";
 CompatibleVersionAdditionalProperties= {"Omi_BaseResource:ConfigurationName"};
 Name="Demo";
};
"#,
        true,
    ),
];

const SEPARATORS: &[(&str, bool)] = &[
    ("", true),
    (" \t\r\n", true),
    ("// a comment that ends the text", true),
    ("//", true),
    ("// a\rinstance", true),
    ("// a\ninstance", false),
    ("/* a */", true),
    ("/**/", true),
    ("/***/", true),
    ("/*/", false),
    ("/* a", false),
    ("/* a */ */", false),
    ("/", false),
    ("\u{c}", false),
    ("\u{b}", false),
    ("instance/**/of/**/A//\n{}//\n;", true),
    ("instance of\u{a0}A{};", false),
    ("instance\u{3000}of A{};", false),
];

const DECLARATIONS: &[(&str, bool)] = &[
    ("abc", false),
    ("class A {};", false),
    ("classes", false),
    ("qualifier", false),
    ("#pragma locale (\"en\")", false),
    ("[Key]", false),
    ("INSTANCE Of A{};", true),
    ("instance of A{};instance of B{};", true),
    ("instance of A{};instance", false),
    ("instance of A{}; x", false),
    ("instance of A{};class B{};", false),
    ("instance of A{};;", false),
    ("instance of A{}", false),
    ("instance of A{", false),
    ("instance of A", false),
    ("instance of A;", false),
    ("instance of {};", false),
    ("instance of 1A{};", false),
    ("instanceof A{};", false),
    ("instance ofA{};", false),
    ("instance of A as $B{};", true),
    ("instance of A as$B{};", true),
    ("instance of A AS $AS{};", true),
    ("instance of A as B{};", false),
    ("instance of A as $ B{};", false),
    ("instance of A as $B as $C{};", false),
    ("instance of A $B{};", false),
    ("instance of instance{instance=NULL;of=TRUE;};", true),
    ("instance of true{null=false;};", true),
    ("instance of \u{80}\u{ffef}{};", true),
    ("instance of \u{fff0}{};", false),
    ("instance of A{X=1;X=2;};", true),
    ("instance of A{X=1};", false),
    ("instance of A{X=1;}", false),
    ("instance of A{X 1;};", false),
    ("instance of A{X=;};", false),
    ("instance of A{=1;};", false),
    ("instance of A{1=1;};", false),
    ("instance of A{$X=1;};", false),
    ("instance of A{;};", false),
    ("instance of A { X = \"ab", false),
    ("instance of A{X=truexxx", false),
];

// Of texts that give the value to a property.
const INTEGERS: &[(&str, bool)] = &[
    ("0", true),
    ("00", true),
    ("017", true),
    ("08", false),
    ("018", false),
    ("7", true),
    ("90", true),
    ("99999999999999999999", true),
    ("-99999999999999999999", true),
    ("0x", false),
    ("0xaF09", true),
    ("0XFF", true),
    ("0x1G", false),
    ("x1", false),
    ("0x1b", true),
    ("101b", true),
    ("1b", true),
    ("1B", true),
    ("0b", true),
    ("00b", true),
    ("0b1", false),
    ("12b", false),
    ("1bb", false),
    ("b", false),
    ("+", false),
    ("-", false),
    ("+-1", false),
    ("- 1", false),
    ("+1", true),
    ("-0", true),
    ("-0x1", true),
    ("-101b", true),
    ("1a", false),
    ("1_", false),
    ("1$A", false),
    ("1+1", false),
    ("1 2", false),
    ("1/**/", true),
    ("1.5", false),
    ("1.", false),
    (".5", false),
    ("99999999999999999999.5", false),
];

const LITERALS: &[(&str, bool)] = &[
    (r#""""#, true),
    (r#"""#, false),
    (r#"""""#, false),
    (r#""""""#, true),
    (r#""a" "b""#, true),
    ("\"a\"/* \" */\"b\"// \"\n\"c\"", true),
    ("\"a\nb\"", true),
    ("\"\u{0}\u{1f600}\"", true),
    (r#""a" 1"#, false),
    (r#"1 "a""#, false),
    (r#""a"b"#, false),
    (r#""// /*""#, true),
    (r#""\b\t\n\f\r\"\'\\""#, true),
    (r#""\""#, false),
    (r#""\B""#, false),
    (r#""\a""#, false),
    (r#""\0""#, false),
    (r#""\x""#, false),
    (r#""\xg""#, false),
    (r#""\x4""#, true),
    (r#""\x41""#, true),
    (r#""\X041""#, true),
    (r#""\x0041""#, true),
    (r#""\x00411""#, true),
    (r#""\x4g""#, true),
    (r#""\xD7FF""#, true),
    (r#""\xD800""#, false),
    (r#""\xdFfF""#, false),
    (r#""\xE000""#, true),
    (r#""\xD8""#, true),
    (r#""\xD80""#, true),
    (r#""\xD80g""#, true),
    (r#""\x0D800""#, true),
    (r#"'a'"#, false),
    (r#""'""#, true),
];

const WORDS_AND_ARRAYS: &[(&str, bool)] = &[
    ("TRUE", true),
    ("tRuE", true),
    ("false", true),
    ("Null", true),
    ("truex", false),
    ("tru", false),
    ("yes", false),
    ("instance", false),
    ("TRUE FALSE", false),
    ("$A", true),
    ("$_9\u{e9}", true),
    ("$true", true),
    ("$", false),
    ("$1", false),
    ("$ A", false),
    ("$/**/A", false),
    ("$$A", false),
    ("$A$B", false),
    ("", false),
    ("{}", true),
    ("{ /* none */ }", true),
    ("{1}", true),
    ("{1,2}", true),
    ("{\"a\" \"b\",null,$c,-0x1}", true),
    ("{1,}", false),
    ("{,}", false),
    ("{,1}", false),
    ("{1 2}", false),
    ("{1;2}", false),
    ("{{}}", false),
    ("{{1}}", false),
    ("{1,{2}}", false),
    ("{x}", false),
    ("{1", false),
    ("1}", false),
    ("{}{}", false),
];

// The reader refuses a text outside the grammar so, where nothing before the fault is past a limit.
fn is_read(rt: &impl AllocGlobal, text: &str) -> Result<bool, Fail> {
    match read(rt.alloc(), text.as_bytes()) {
        Ok(_) => Ok(true),
        Err(MofError::Syntax { .. } | MofError::OutOfProfile { .. }) => Ok(false),
        Err(MofError::NumberRange { .. } | MofError::TooMany { .. }) => Ok(true),
        Err(_) => Err(Fail::new("no answer on the characters")),
    }
}

fn is_decided(rt: &impl AllocGlobal, text: &str) -> Result<bool, Fail> {
    let chars: Vec<char> = text.chars().collect(rt.alloc())?;
    Ok(is_wide(rt.alloc(), &chars)?)
}

fn both_say(rt: &impl AllocGlobal, text: &str, want: bool) -> Result<(), Fail> {
    if is_decided(rt, text)? == want && is_read(rt, text)? == want {
        return Ok(());
    }
    Err(Fail::new(format_args!("{text}: not {want}")))
}

#[test]
fn texts_are_in_the_grammar_or_not(rt: HostRuntime) -> Result<(), Fail> {
    for table in [DOCUMENTS, SEPARATORS, DECLARATIONS] {
        for (text, want) in table.iter() {
            both_say(&rt, text, *want)?;
        }
    }
    Ok(())
}

fn given(rt: &impl AllocGlobal, value: &str) -> Result<String, Fail> {
    Ok(format!(in rt.alloc(); "instance of A{{X={value};}};")?)
}

#[test]
fn values_are_in_the_grammar_or_not(rt: HostRuntime) -> Result<(), Fail> {
    for table in [INTEGERS, LITERALS, WORDS_AND_ARRAYS] {
        for (value, want) in table.iter() {
            both_say(&rt, given(&rt, value)?.as_str(), *want)?;
        }
    }
    Ok(())
}
