//! The page of `jupweb`. `tools/embed` makes this file of page/jupweb.html.
#![tactic(auto)]

/// What a browser gets if the command line names no other page.
pub const PAGE: &[u8] = br#"<!doctype html>
<html lang="en">
<head>
<meta charset="utf-8">
<meta http-equiv="Content-Security-Policy" content="default-src 'none'; script-src 'sha256-mBL7TSoTLNuddZ/yACIfayg/mREKLSV8VQuxBD7Jcmg='; style-src 'sha256-DuI8mRnbR21lAdXj+Uc+Lhi0Y1t1pOgoTLloce9TMNs='; img-src data:; connect-src 'self'; base-uri 'none'; form-action 'none'">
<meta name="viewport" content="width=device-width, initial-scale=1">
<meta name="color-scheme" content="light dark">
<title>Gidzvruka</title>
<link rel="icon" href="data:image/svg+xml,%3Csvg xmlns='http://www.w3.org/2000/svg' viewBox='0 0 16 16'%3E%3Crect width='16' height='16' rx='3' fill='%23226082'/%3E%3Cpath d='M4 5h8M4 8h5M4 11h7' stroke='white' stroke-width='1.6'/%3E%3C/svg%3E">
<style>
:root{
color-scheme:light dark;
--ground:#f4f3ef;--card:#fff;--ink:#22262b;--faint:#5a626a;--line:#c9c6bc;--edge:#84867f;
--accent:#226082;--good:#1d7a37;--wait:#8a5a00;--bad:#b3261e;
}
@media (prefers-color-scheme:dark){
:root{
--ground:#191b1e;--card:#232629;--ink:#e9e7e2;--faint:#a4abb2;--line:#3d4248;--edge:#7d848b;
--accent:#78b8d6;--good:#6cc585;--wait:#e0ae4a;--bad:#f2938c;
}
}
*{box-sizing:border-box;}
html{scroll-padding-top:5rem;}
body{margin:0;background:var(--ground);color:var(--ink);font:1rem/1.45 system-ui,sans-serif;}
h1,h2,p,ol{margin:0;padding:0;}
h1{font-size:1.05rem;}
h2{font-size:1rem;}
[hidden]{display:none !important;}
.unseen{position:absolute;width:1px;height:1px;overflow:hidden;clip-path:inset(50%);white-space:nowrap;}
header{
position:sticky;top:0;z-index:1;display:flex;flex-wrap:wrap;gap:.1rem .6rem;align-items:center;
padding:.6rem max(1rem,env(safe-area-inset-right)) .6rem max(1rem,env(safe-area-inset-left));background:var(--card);border-bottom:1px solid var(--line);
}
#title:focus{outline:none;}
#who,#state{color:var(--faint);font-size:.9rem;}
#who{margin-right:auto;}
#tools{margin-left:auto;}
#state{font-variant-numeric:tabular-nums;}
#state::before{content:"";display:inline-block;width:.6rem;height:.6rem;margin-right:.45rem;border-radius:50%;background:var(--bad);transition:background .1s;}
[data-stage=open] #state::before{background:var(--good);}
:is([data-stage=sending],[data-stage=connecting],[data-stage=draft],[data-stage=joining]) #state::before{background:var(--wait);transition-delay:.2s;}
:is([data-stage=lost],[data-stage=waiting]) #state{color:var(--bad);font-weight:600;}
#notice-count{color:var(--bad);border-color:var(--bad);font-weight:600;}
#menu{position:fixed;inset:3.4rem 1rem auto auto;width:min(24rem,calc(100vw - 2rem));max-height:calc(100vh - 5rem);overflow:auto;margin:0;padding:1rem;color:var(--ink);background:var(--card);border:1px solid var(--edge);border-radius:.6rem;}
#menu h2:not(:first-child){margin-top:1rem;}
#tells{width:1.5rem;height:1.5rem;margin:0;flex:none;}
.check{display:flex;align-items:center;gap:.6rem;}
#menu-own{display:grid;gap:.4rem;margin:.5rem 0;}
dl{display:grid;grid-template-columns:auto 1fr;gap:.2rem .8rem;margin:.4rem 0 1rem;font-size:.9rem;}
dt{font-weight:600;}
dd{margin:0;color:var(--faint);}
#welcome,#notices:not(:empty){max-width:72rem;margin:1rem auto 0;padding:0 1rem;}
#welcome{display:flex;align-items:center;gap:1rem;}
.notice{display:grid;gap:.5rem;margin:.5rem 0;padding:.7rem 1rem;border:1px solid var(--line);border-left:4px solid var(--bad);border-radius:.4rem;background:var(--card);}
main{max-width:72rem;margin:1rem auto 3rem;padding:0 1rem;display:grid;gap:1rem;align-items:start;grid-template-columns:repeat(auto-fit,minmax(min(100%,24rem),1fr));}
main section{background:var(--card);border:1px solid var(--line);border-radius:.6rem;padding:.9rem 1.1rem 1.1rem;display:grid;gap:1rem;min-width:0;}
:is([data-stage=lost],[data-stage=waiting]) main section{border-style:dashed;border-color:var(--bad);}
.widget{display:grid;gap:.3rem;min-width:0;}
.across{display:flex;flex-wrap:wrap;align-items:center;justify-content:space-between;min-height:2.5rem;}
.caption{color:var(--faint);font-size:.9rem;display:flex;flex-wrap:wrap;align-items:center;gap:.1rem .5rem;min-width:0;overflow-wrap:anywhere;}
.after{color:var(--wait);}
.quiet{margin-left:auto;min-height:1.9rem;padding:0 .5rem;color:var(--faint);font-size:.85rem;}
.waits{color:var(--wait);}
.mark{width:.55rem;height:.55rem;border-radius:50%;background:var(--accent);opacity:0;}
.row{display:flex;align-items:center;gap:.4rem;}
.wraps{flex-wrap:wrap;}
ol{list-style:none;display:grid;gap:.4rem;}
ol,li{position:relative;}
li{border-radius:.4rem;scroll-margin-bottom:4rem;}
.handle{flex:none;min-width:1.6rem;padding:0;color:var(--faint);cursor:grab;touch-action:none;}
li > .row{flex-wrap:wrap;}
li > .row > input[type=text]{flex:1 1 5rem;width:0;}
.dragged{opacity:.6;}
li.lands::after,ol.lands::before{content:"";position:absolute;inset:auto 0 -.3rem;border-top:3px solid var(--accent);}
ol.lands::before{inset:-.3rem 0 auto;}
li:focus-visible{outline:3px solid var(--accent);outline-offset:1px;}
.ghost input{opacity:.7;text-decoration:line-through;text-decoration-color:var(--bad);}
.foot{position:sticky;bottom:0;padding:.2rem 0;background:var(--card);}
textarea,input[type=text],input[type=number]{
font:inherit;color:inherit;background:var(--ground);border:1px solid var(--edge);border-radius:.4rem;padding:.5rem .6rem;width:100%;min-width:0;min-height:2.5rem;
}
::placeholder{color:var(--faint);opacity:1;}
textarea{resize:vertical;field-sizing:content;min-height:5.4rem;max-height:60vh;overflow:auto;}
:read-only:is(textarea,input:not([type=checkbox],[type=range])){border-style:dashed;}
:is(textarea,input,button):focus-visible{outline:3px solid var(--accent);outline-offset:1px;}
[aria-invalid=true]{border-color:var(--bad);outline-color:var(--bad) !important;}
.hint{color:var(--bad);font-size:.9rem;}
summary{min-height:2.5rem;cursor:pointer;}
button{font:inherit;color:var(--ink);min-width:2.5rem;min-height:2.5rem;padding:0 .6rem;border:1px solid var(--edge);border-radius:.4rem;background:var(--card);cursor:pointer;}
button:hover{border-color:var(--ink);}
[aria-disabled=true]{opacity:.5;cursor:not-allowed;}
input[role=switch]{appearance:none;flex:none;width:3.2rem;height:1.8rem;border:1px solid var(--edge);border-radius:1rem;background:var(--ground);position:relative;margin:0;cursor:pointer;}
input[role=switch]::after{content:"";position:absolute;width:1.3rem;height:1.3rem;border-radius:50%;background:var(--edge);top:.19rem;left:.2rem;}
input[role=switch]:checked{background:var(--accent);border-color:var(--accent);}
input[role=switch]:checked::after{background:var(--card);left:1.6rem;}
input[type=range]{flex:1 1 6rem;min-width:5rem;height:2.5rem;margin:0;accent-color:var(--accent);}
input[type=number]{flex:none;width:min(6rem,100%);}
.bound{color:var(--faint);font-size:.9rem;}
.paper{display:none;}
@media (pointer:coarse){
button,.quiet,.handle,textarea,input:is([type=text],[type=number],[type=range]){min-width:44px;min-height:44px;}
#tells{width:44px;height:44px;}
input[role=switch]{width:78px;height:44px;border-radius:22px;}
input[role=switch]::after{width:32px;height:32px;top:5px;left:5px;}
input[role=switch]:checked::after{left:39px;}
}
@media print{
header,button,.foot,.mark,.waits,textarea,#welcome,[type=range],.bound{display:none !important;}
body,main section{background:none;}
main{display:block;margin:0;padding:0;}
main section,input{border:none !important;}
input[role=switch]{print-color-adjust:exact;border:1px solid var(--edge) !important;}
.paper{display:block;margin:0;font:inherit;white-space:pre-wrap;overflow-wrap:anywhere;}
}
@media (forced-colors:active){
.mark,#state::before,input[role=switch]::after{forced-color-adjust:none;}
input[role=switch]::after{background:ButtonText !important;}
}
@media (prefers-reduced-motion:reduce){*,::before{transition:none !important;}}
</style>
</head>
<body data-stage="connecting">
<header>
<h1 id="title" tabindex="-1" dir="auto">Gidzvruka</h1>
<p id="who"></p>
<p id="state">connecting &hellip;</p>
<button id="notice-count" type="button" hidden></button>
<button id="try-now" type="button" hidden>Try now</button>
<div class="row" id="tools">
<button id="undo" type="button" aria-label="Undo" title="Undo (Ctrl-Z)" aria-disabled="true">&#8630;</button>
<button id="redo" type="button" aria-label="Redo" title="Redo (Ctrl-Y)" aria-disabled="true">&#8631;</button>
<button id="menu-button" type="button" popovertarget="menu" aria-label="Menu">&#8942;</button>
</div>
</header>
<section id="menu" popover aria-labelledby="menu-caption">
<h2 id="menu-caption">This board</h2>
<div id="menu-own"></div>
<p>What waits to be sent is kept on this device. A private window forgets it when it is closed.</p>
<h2>Keys</h2>
<dl>
<dt>Enter, &uarr;, &darr;</dt><dd>send what is typed in an item, and go to the next or the one before</dd>
<dt>Escape</dt><dd>take back what is typed in an item</dd>
<dt>Ctrl-Z, Ctrl-Y</dt><dd>undo what you did last on this board, and do it again</dd>
<dt>Alt-&uarr;, Alt-&darr;</dt><dd>move an item</dd>
<dt>Tab, then Space</dt><dd>go to a button, and press it: delete, add, copy, choose</dd>
<dt>Space, &larr;, &rarr;</dt><dd>set a toggle or a slider</dd>
<dt>?</dt><dd>show this, outside a text</dd>
</dl>
<p>Gidzvruka: all copies of this board come to agree.</p>
</section>
<p id="news" role="status" class="unseen"></p>
<div id="welcome" hidden><p>Anyone with this link can edit. Changes are sent as you type.</p><button id="welcome-close" type="button" aria-label="Close">&times;</button></div>
<div id="notices"></div>
<main id="board"></main>
<noscript>This page needs JavaScript.</noscript>
<script type="module">
let D=32,af=65536,ag=1024,aC=48,cN=64,cO=64,bi=256,cP=4294967295;class aD extends Error{constructor(number){super(`fault ${number}`);this.number=number}}
let c=number=>{throw new aD(number)},j="(0|[1-9][0-9]*)",L="((?:0|[1-9][0-9]*)\\.(?:0|[1-9][0-9]*))",ah="(0|-?[1-9][0-9]*)",ai=`([ -~]{1,${aC}})`,bj="(on|off)",k=t=>new RegExp(`^${t}$`),cQ=k(ai),bk=text=>cQ.test(text),aE=value=>Number.isInteger(value)&&value>=0&&(value<0xd800||value>0xdfff)&&value<0x110000,bl=(t,text)=>t.exec(text)??c(40),bm=(text,end)=>(text.length<=10&&Number(text)<end?Number(text):c(40)),o=text=>bm(text,2**32),id=text=>bm(text,2**16),aj=text=>(text.length<=11&&Number(text)===(Number(text)|0)?Number(text):c(40)),bn=text=>(aE(o(text))?o(text):c(40)),bo=text=>text==="on";function name(text){text.split(".").forEach(o);return text}
let bp={hello:[k(j),version=>o(version)===3||c(42)],welcome:[k(`${j} ${j}`),(site,limit)=>({site:o(site),limit:o(limit)})],window:[k(j),it=>({id:id(it)})],text:[k(j),it=>({id:id(it)})],list:[k(j),it=>({id:id(it)})],toggle:[k(`${j} ${bj}`),(it,value)=>({id:id(it),value:bo(value)})],slider:[k(`${j} ${ah} ${ah} ${ah}`),(it,low,high,value)=>({id:id(it),low:aj(low),high:aj(high),value:aj(value)})],char:[k(`${L} ${j}`),(it,value)=>({name:name(it),value:bn(value)})],item:[k(`${L} ${ai}`),(it,value)=>({name:name(it),value})],batch:[k(`${j} ${j} ${j}`),cR],do:[k(`${j} ${j} (text|list|toggle|slider) (ins|del|rel|set|no)(?: (.*))?`),cS],ack:[k(j),it=>({number:o(it)})],ping:[k(j),it=>({number:o(it)})],pong:[k(j),it=>({number:o(it)})],error:[k(j),it=>({number:o(it)})],ready:[null,()=>({})],bye:[null,()=>({})]},cT={"text ins":[k(`${j} ${L} ${j}`),(place,it,value)=>({place:o(place),name:name(it),value:bn(value)})],"text del":[k(`${j} ${L}`),(place,it)=>({place:o(place),name:name(it)})],"list ins":[k(`${j} ${L} ${ai}`),(place,it,value)=>({place:o(place),name:name(it),value})],"list del":[k(`${j} ${L}`),(place,it)=>({place:o(place),name:name(it)})],"list rel":[k(`${j} ${L} ${ai}`),(place,it,value)=>({place:o(place),name:name(it),value})],"toggle set":[k(bj),value=>({value:bo(value)})],"slider set":[k(ah),value=>({value:aj(value)})]};function cR(mine,heard,count){let aF={mine:o(mine),heard:o(heard),count:o(count)};return aF.count>=1&&aF.count<=D?aF:c(40)}
function cS(win,wid,kind,verb,rest){let op={win:id(win),wid:id(wid),kind,verb};if(verb==="no")return rest===undefined?{op}:c(40);let[t,fields]=cT[`${kind} ${verb}`]??c(40);return{op:{...op,...fields(...bl(t,rest??"").slice(1))}}}
function readLine(line){if(line.length>=bi)c(41);let[word]=line.split(" ",1),[t,fields]=Object.hasOwn(bp,word)?bp[word]:c(40);if(t===null)return line===word?{word}:c(40);return{word,...fields(...bl(t,line.slice(word.length+1)).slice(1))}}
function cU(op){let words=["do",op.win,op.wid,op.kind,op.verb];if(op.verb==="set")words.push(op.kind==="toggle"?(op.value?"on":"off"):op.value);else if(op.verb!=="no")words.push(op.place,op.name);if(op.verb==="ins"||op.verb==="rel")words.push(op.value);return words.join(" ")}
class cV{rest="";take(cW){let d=(this.rest+cW).split("\n");this.rest=d.pop();if(this.rest.length<bi)return d;return[...d,this.rest]}}
let E=(op,place)=>(place===op.place?op:{...op,place:Math.min(place,cP)}),aG=({win,wid,kind})=>({win,wid,kind,verb:"no"});function bq(op,l){if(l.verb==="rel")return op;if(l.verb==="del"){if(op.verb!=="ins"&&op.name===l.name)return aG(op);return l.place<op.place?E(op,op.place-1):op}
let cX=op.verb==="ins"?l.place<op.place:l.place<=op.place;return cX?E(op,op.place+1):op}
function cY(r,q){if(r.win!==q.win||r.wid!==q.wid||r.verb==="no"||q.verb==="no")return[r,q];if(r.verb==="set")return[r,aG(q)];if(r.verb==="rel"&&q.verb==="rel")return[r,r.name===q.name?aG(q):q];if(r.verb==="ins"&&q.verb==="ins"&&r.place===q.place)return[r,E(q,q.place+1)];return[bq(r,q),bq(q,r)]}
function cZ(r,q){let ak=[...q],da=r.map(op=>{let w=op;for(let i=0;i<ak.length;i++)[w,ak[i]]=cY(w,ak[i]);return w});return[da,ak]}
class br{windows=new Map();#S=null;#D=null;widget(win,wid){return this.windows.get(win)?.get(wid)}
readLine(line){if(line.word==="window")return this.#cT(line.id);if(line.word==="char"||line.word==="item")return this.#cU(line);if(!this.#S)c(44);let{id,word:kind,...rest}=line;if(kind==="slider"&&(rest.value<rest.low||rest.value>rest.high))c(13);bs(this.#S,id);this.#D=kind==="text"||kind==="list"?{kind,items:[],names:new Set()}:{kind,...rest};return this.#S.set(id,this.#D)}
#cT(win){bs(this.windows,win);this.#S=new Map();return this.windows.set(win,this.#S)}
#cU(line){if(this.#D?.kind!==(line.word==="char"?"text":"list"))c(44);if(this.#D.names.has(line.name))c(45);this.#D.names.add(line.name);return this.#D.items.push({name:line.name,value:line.value})}
applyAll(steps,operation=op=>op,test=()=>{}){let took=[],bt=[],names=new Set();try{for(let step of steps){let op=operation(step);if(op.verb==="ins"&&names.has(op.name))c(23);let left=this.widget(op.win,op.wid)?.items?.[op.place-1]?.name??null,al=this.#aH(op);bt.push(al);if(op.verb==="ins"||op.verb==="del")names.add(op.name);took.push({op,value:al.value,left})}
test();return took}catch(fault){for(let al of bt.reverse())this.#aH(al);throw fault}}
#aH(op){if(op.verb==="no")return op;let widget=this.widget(op.win,op.wid);if(widget?.kind!==op.kind)c(23);if(op.verb==="set")return set(widget,op);return op.verb==="ins"?insert(widget,op):change(widget,op)}}
function bs(taken,id){if(id===0)c(12);if(taken.has(id))c(10);if(taken.size>=cN)c(11)}
function set(widget,op){if(widget.kind==="slider"&&(op.value<widget.low||op.value>widget.high))c(23);let before=widget.value;widget.value=op.value;return{...op,value:before}}
function insert({items,names},op){if(op.place>items.length||names.has(op.name))c(23);items.splice(op.place,0,{name:op.name,value:op.value});names.add(op.name);return{...op,verb:"del"}}
function change({items,names},op){let before=items[op.place];if(before?.name!==op.name)c(23);if(op.verb==="rel"){items[op.place]={name:op.name,value:op.value};return{...op,value:before.value}}
items.splice(op.place,1);names.delete(op.name);return{...op,verb:"ins",value:before.value}}
let db=new Set(["window","text","list","toggle","slider","char","item"]);class bu{stage="welcome";board=new br();site=0;limit=0;made=0;heard=0;#ae=[];#bg=0;#aI=0;#aJ=0;#bh=0;#bZ=!1;#j=null;#T=[];#aK=null;#an;#e;constructor(send,told=()=>{}){this.#an=send;this.#e=told}
hear(line){if(this.stage==="stopped")return;this.put();try{this.#cV(readLine(line))}catch(fault){this.stop();throw fault}}
stop(){this.stage="stopped"}
ping(){this.#bh+=1;this.#an(`ping ${this.#bh}\n`);return this.#bh}
bye(){this.put();this.#bZ=!0;this.#an("bye\n")}
get backlog(){return this.#ae.length}
get sent(){return this.made-(this.#j===null?0:1)}
edit(commands){this.put();let ops=this.extend(commands);this.put();return ops}
extend(commands){if(this.stage!=="open")c(25);if(commands.length<1||commands.length>D)c(15);if(this.#j?.length+commands.length>D)this.put();let took=this.#aH(commands),ops=took.map(({op})=>op);if(this.#j===null){this.#ae.push((this.#j=[]));this.made+=1}
this.#j.push(...ops);this.#e("made",{took,nth:this.made-1});return ops}
put(){if(this.#j===null)return;let d=[`batch ${this.made - 1} ${this.heard} ${this.#j.length}`,...this.#j.map(cU)];this.#j=null;this.#aI=0;this.#an(`${d.join("\n")}\n`)}
#aH(commands){let dc=this.#aJ;try{return this.board.applyAll(commands,command=>this.#cW(command),()=>this.#cX())}catch(fault){this.#aJ=dc;throw fault}}
#cX(){if(this.#j!==null)return;if(this.#ae.length>=ag)c(7);if(this.made>=this.limit)c(9)}
#cW({verb,win,wid,place,value,kind}){if(!this.board.windows.has(win))c(1);let widget=this.board.widget(win,wid)??c(2),op={win,wid,kind:widget.kind,verb};dd(widget,verb,value,kind);if(verb==="set")return{...op,value};if(place>widget.items.length-(verb==="ins"?0:1))c(4);if(verb==="ins"){if(widget.items.length>=af)c(6);this.#aJ+=1;return{...op,place,name:`${this.site}.${this.#aJ}`,value}}
let found={...op,place,name:widget.items[place].name};return verb==="rel"?{...found,value}:found}
#cV(line){if(this.#aK)return this.#cY(line);if(line.word==="error")c(line.number);if(this.stage==="welcome")return this.#cZ(line);return this.stage==="board"?this.#da(line):this.#db(line)}
#cZ({word,site,limit}){if(word!=="welcome")c(44);Object.assign(this,{site,limit,stage:"board"})}
#da(line){if(line.word!=="ready"){if(!db.has(line.word))c(44);this.#T.push(line);return}
for(let it of this.#T)this.board.readLine(it);if(this.limit<1||this.limit>16777216)c(50);if(this.site<1||this.site>65535||this.#T.some(it=>it.name&&this.#ca(it.name)))c(51);this.#T=[];this.stage="open";this.#e("ready")}
#db(line){switch(line.word){case "batch":
this.#aK={...line,ops:[]};break;case "ack":
this.#q(line.number);break;case "pong":
this.#e("pong",line.number);break;case "bye":
if(!this.#bZ)c(44);this.stop();break;default:
c(44)}}
#cY(line){if(line.word!=="do")c(44);let{mine,heard,count,ops}=this.#aK;ops.push(line.op);if(ops.length<count)return;this.#aK=null;this.#dc(mine,heard,ops)}
#dc(mine,heard,ops){if(mine!==this.heard)c(20);this.#q(heard);if(ops.some(op=>op.verb==="ins"&&this.#ca(op.name)))c(22);let comes=ops;this.#ae=this.#ae.map(edit=>{let[w,others]=cZ(edit,comes);comes=others;return w});let took=this.board.applyAll(comes);this.heard+=1;this.#dd();this.#e("came",{raw:ops,took,heard});for(let op of comes)if(op.verb!=="no")this.#e("changed",op)}
#dd(){this.#aI+=1;if(this.#aI<cO)return;this.#aI=0;this.#an(`ack ${this.heard}\n`)}
#q(count){if(count<this.#bg||count>this.made)c(21);this.#ae.splice(0,count-this.#bg);this.#bg=count}
#ca(de){return de.startsWith(`${this.site}.`)}}
function dd(widget,verb,value,kind){if(verb==="set")return df(widget,value);let am=widget.kind==="text";if(!am&&widget.kind!=="list")c(3);if(verb==="rel"&&am)c(3);if(verb==="ins"&&kind&&kind!==(am?"char":"item"))c(3);if(verb!=="del"&&!(am?aE(value):bk(value)))c(3);return undefined}
function df(widget,value){let type={toggle:"boolean",slider:"number"}[widget.kind];if(typeof value!==type)c(3);if(widget.kind==="slider"&&(value<widget.low||value>widget.high))c(5)}
let dg=64,dh=60000,di=90000,dj=10000,dk=[500,1000,2000,4000,5000],bv=0.2,dl=1000,bw=32768,dm=86400,dn=2**32,dp=[35,36,40,42],dq=/^link ([0-9a-f]{32}) (0|[1-9]\d{0,4})( kept)?$/,aH=/^(resumed|ended|error|got) (0|[1-9]\d{0,9})$/,fields=(t,line)=>{let found=t.exec(line);return found&&Number(found[2])<dn?found:null};class dr{isCarried=!1;isKept=!1;seconds=0;version;#cb;#m;#aL;#aM;#n;#ao=null;#bi=!1;#K=!1;#r=null;#z=0;#s=[];#G=0;#t=null;#T=null;#af=null;#bj=0;#ap=!1;#bk=0;#aN=0;#bl=0;#bm=Infinity;#bn=[];#U=!1;#bo=0;#cc=-Infinity;#V=null;constructor(connect,does,{version=4,waits=dk,most=Infinity,now=()=>performance.now()}={}){this.#cb=connect;this.#m=does;this.#aL=waits;this.#aM=most;this.#n=now;this.version=version}
get silence(){return this.#n()-this.#aN}
open(){clearTimeout(this.#V);this.#V=null;this.#q();this.#K=!1;this.#cc=this.#aN=this.#n();this.#T=new cV();let M=step=>it=>N===this.#t&&step(it),N=this.#cb({opened:M(()=>this.#de()),came:M(text=>this.#aO(text)),closed:M(()=>this.cut())});this.#t=N}
openLater(isLong=!1){let F=this.#aL[isLong?this.#aL.length-1:Math.min(this.#bo,this.#aL.length-1)];this.#bo+=1;this.#cd(F*(1-bv+2*bv*Math.random()))}
#cd(F){clearTimeout(this.#V);this.#V=setTimeout(()=>this.open(),F)}
hurry(){if(this.#V!==null)this.#cd(Math.max(0,this.#cc+dl-this.#n()))}
put(text){this.#s.push(...text.split("\n").slice(0,-1));this.#df()}
close(){clearTimeout(this.#V);this.#V=null;this.#K=!0;this.#aq();this.#q()}
tend(){if(this.#t===null)return;let{unsent}=this.#t;if(unsent<this.#bk)this.#aN=this.#n();this.#bk=unsent;if(this.silence>=di)this.cut();else if(this.version>3&&this.isCarried&&this.#n()-this.#bl>=dh){this.#ap=!0;this.#aq()}}
#de(){if(this.version===3)this.#aP(null);else this.#t.send(this.#ao?`resume ${this.#ao} ${this.#z}\n`:"hello 4\n")}
#aP(Y){this.#ag();this.#ao=Y;if(Y===null)this.#t.send("hello 3\n");this.#m.begins();this.#ce(0)}
#ag(){this.#ao=null;this.#bi=!1;this.#r=null;this.#z=0;this.#s=[];this.#G=0}
#ce(written,an=!1){this.#af=written;this.#ap=an;this.#bj=this.#z;this.#bm=this.#bl=this.#n();this.#bk=0;this.isCarried=!0;this.#m.carried();this.#aq()}
#q(){let N=this.#t;this.#t=null;this.#af=null;this.isCarried=!1;if(this.#n()-this.#bm>=dj)this.#bo=0;this.#bm=Infinity;N?.end()}
cut(){if(this.#t===null)return;let ds=this.isCarried;this.#q();this.#aM-=1;if(this.#K)return;if(this.version===3||this.#aM<1)this.#d();else{this.openLater();if(ds)this.#m.cut()}}
#d(fault=null,covered=null,goesOn=!1){this.#K=!0;this.#q();this.#cf();let d=covered===null?null:this.#s.slice(covered-this.#G),lost=d&&d.filter(it=>it.startsWith("batch ")).length+Number(d[0]?.startsWith("do ")??!1);this.#ag();this.#m.over({fault,lost,goesOn})}
#aO(text){this.#aN=this.#n();let N=this.#t;for(let line of this.#T.take(text)){if(N!==this.#t||this.#r!==null)break;if(!this.isCarried)this.#dg(line);else if(this.#dh(line))this.#bn.push(line)}
this.#cf();if(N!==this.#t)return;this.#aq();if(this.#r!==null)this.#d(this.#r||null,this.#G,this.#r!==0)}
#cf(){if(this.#bn.length>0)this.#m.hears(this.#bn.splice(0))}
#dg(line){if(this.#ao)this.#di(line);else{let[,Y,seconds,kept]=fields(dq,line)??[],[,word,number]=fields(aH,line)??[];if(Y&&seconds<=dm){this.#aM=Infinity;Object.assign(this,{seconds:Number(seconds),isKept:kept!==undefined});this.#aP(Y)}else if(word!=="error")this.cut();else if(Number(number)===42){this.version=3;this.open()}else this.#d(Number(number),0)}}
#di(line){let[,word,number]=fields(aH,line)??[],count=Number(number),ao=count>=this.#G&&count<=this.#G+this.#s.length;if(word===undefined||word==="got"||(word==="error"&&!dp.includes(count)))this.cut();else if(word==="resumed"){if(ao)this.#ce(count,!0);else this.#d(36)}else if(!this.#bi){this.#ag();this.cut()}else if(word==="error")this.#d(count);else this.#d(ao?null:35,ao?count:null,ao)}
#dh(line){if(this.version===3)return !0;let[,word,number]=fields(aH,line)??[];if(word==="got")return this.#cg(Number(number));this.#z+=1;this.#bi||=line==="ready";this.#r=word==="error"?Number(number):line==="bye"?0:null;this.#ap||=this.#r!==null;return this.#r===null}
#cg(count){if(count<this.#G||count>this.#af)this.#d(36);else{this.#s.splice(0,count-this.#G);this.#G=count}
return !1}
#df(){if(!this.#U)queueMicrotask(()=>this.#aq());this.#U=!0}
#aq(){this.#U=!1;if(!this.isCarried)return;let an=this.version>3&&(this.#ap||this.#z-this.#bj>=dg),d=this.#r!==null?[]:this.#s.slice(this.#af-this.#G),text=[...(an?[`got ${this.#z}`]:[]),...d].map(line=>`${line}\n`).join("");if(text==="")return;if(an)[this.#ap,this.#bj]=[!1,this.#z];this.#af+=d.length;this.#bl=this.#n();if(this.version===3)this.#cg(this.#af);for(;text!=="";text=text.slice(bw))this.#t.send(text.slice(0,bw))}}
let dt=8,du=16,dv=5000,dw=20000,bx=15000,dx=1000,bz=new MessageChannel(),ap=[];bz.port1.onmessage=()=>ap.shift()();function aI(task){ap.push(task);bz.port2.postMessage(null)}
let dy=O=>({opened,came,closed})=>{let P=new WebSocket(O);P.addEventListener("open",opened);P.addEventListener("message",({data})=>came(data));P.addEventListener("close",closed);return{send:text=>P.readyState===WebSocket.OPEN&&P.send(text),end:()=>P.close(),get unsent(){return P.bufferedAmount}}};class dz{confirmed=0;site=new bu(()=>{});cutAt=null;#e;#k;#W=null;#ar=null;#bp=[];#A=null;#U=!1;#v=null;constructor(O,told){this.#e=told;this.#k=new dr(dy(O),{begins:()=>this.#aP(),hears:d=>this.#aO(d),carried:()=>this.#dj(),cut:()=>this.#ch(),over:it=>this.#aO([],it)});setInterval(()=>this.#dk(),dv);this.#k.open()}
get isOpen(){return this.site.stage==="open"}
get isCarried(){return this.isOpen&&this.#k.isCarried&&this.#W===this.site&&this.#ar===null}
get isApart(){return this.#W!==this.site}
get isKept(){return this.#k.isKept}
get grace(){return this.#k.seconds*1000}
hurry(isBack=!1){if(isBack&&this.#v!==null&&this.isCarried&&performance.now()-this.#v.at>dx)this.#k.cut();this.#k.hurry()}
edit(commands){let ops=this.isCarried?this.site.edit(commands):this.site.extend(commands);this.#bq();return ops}
leave(){this.hasLeft=!0;if(!this.isApart&&this.isOpen){this.site.bye();this.#ar=this.site.made}
this.#k.close();this.#ch()}
comeBack(){if(!this.hasLeft)return;this.hasLeft=!1;this.#k.open()}
#aP(){let site=new bu(text=>site===this.#W&&this.#ar===null&&this.#k.put(text),(what,it)=>this.#dl(site,what,it));this.#W=site;this.#ar=null;this.#bp=[];this.#v=null}
#dj(){if(!this.isCarried)return;this.site.put();this.cutAt=null;this.#bq();this.#e("carried")}
#ch(){this.cutAt??=new Date();if(this.isOpen)this.#e("cut")}
#aO(d,ended=null){this.#bp.push(...d);this.#A??=ended;if(!this.#U)this.#ci()}
#ci(){let site=this.#W,d=this.#bp,end=performance.now()+dt,count=0;try{while(count<d.length&&(count%du>0||performance.now()<end))site.hear(d[count++])}catch(fault){if(!(fault instanceof aD))throw fault;this.#k.close();this.#A={fault:d[count-1]==="bye"?null:fault.number,lost:null,goesOn:!1};count=d.length}
d.splice(0,count);this.#U=d.length>0;if(this.#U)aI(()=>this.#ci());else if(this.#A!==null)this.#H(this.#A);this.#e("heard")}
#dl(site,what,it){if(what==="ready"){Object.assign(this,{site,confirmed:0,cutAt:null});this.#e(what)}else if(what!=="pong")this.#e(what,it);else if(it===this.#v?.number){this.confirmed=this.#v.made;this.#v=null;this.#e("confirmed");this.#bq()}}
#bq(){if(this.isCarried&&this.#v===null&&this.confirmed<this.site.made)this.#cj()}
#cj(){this.#v={number:this.site.ping(),made:this.site.made,at:performance.now()}}
#dk(){this.#k.tend();let{silence}=this.#k;if(!this.isCarried||(this.#v!==null&&performance.now()-this.#v.at>bx)){if(silence>bx)this.#k.cut()}else if(this.#v===null&&silence>dw)this.#cj()}
#H({fault,lost,goesOn}){let site=this.#W,sent=this.#ar??site?.sent;this.#A=this.#W=this.#v=null;this.cutAt??=new Date();if(this.#k.version===3)this.site.stop();if(this.hasLeft)return;this.#k.openLater(fault===30||fault===31);if(site===this.site)this.#e("ended",{taken:lost===null?null:sent-lost,goesOn});this.#e("lost",fault)}}
let dA=3,bA=16,dB=500;class dC{#ck;#L=null;#br=0;#as=bA;constructor(views){this.#ck=views}
soon(){if(this.#L!==null)return;let F=this.#br+this.#as-performance.now();if(F<=0)this.now();else this.#L=setTimeout(()=>this.now(),F)}
now(){clearTimeout(this.#L);this.#L=null;let bB=[...this.#ck.values()].filter(view=>view.isStale);if(bB.length===0)return;let aJ=performance.now();for(let view of bB)view.update();this.#br=performance.now();requestAnimationFrame(frame=>aI(()=>this.#dm(this.#br-aJ+performance.now()-frame)))}
#dm(dD){this.#as=Math.min(dB,Math.max(bA,dA*dD))}}
function dE(board,captionOf){let parts=[];for(let[win,widgets]of board.windows){let caption=captionOf(String(win));parts.push(`${caption}\n${"=".repeat(Array.from(caption).length)}`);for(let[wid,widget]of widgets)parts.push(captionOf(`${win}.${wid}`,widget.kind)+":"+dF(widget))}
return `${parts.join("\n\n")}\n`}
function dF(widget){if(widget.kind==="text")return `\n${aq(widget)}`;if(widget.kind==="list")return widget.items.map(({value})=>`\n- ${value}`).join("");return ` ${aK(widget)}`}
let aq=({items})=>items.map(({value})=>String.fromCodePoint(value)).join(""),aK=({kind,value})=>(kind==="toggle"?(value?"on":"off"):String(value)),bC=widget=>(widget.kind==="text"?aq(widget):widget.items.map(({value})=>value).join("\n"));function dG(board){let d=[];for(let[win,widgets]of board.windows){d.push(`window ${win}`);for(let[wid,widget]of widgets)d.push([widget.kind,wid,...dH(widget)].join(" "))}
return d.map(line=>`${line}\n`).join("")}
function dH(widget){if(widget.kind==="text")return[quoted(aq(widget))];if(widget.kind==="list")return widget.items.map(({value})=>quoted(value));return widget.kind==="toggle"?[aK(widget)]:[widget.low,widget.high,widget.value]}
function quoted(text){let dI=Array.from(text,it=>{if(it==='"'||it==="\\")return `\\${it}`;return it>=" "&&it<="~"?it:`\\u{${it.codePointAt(0).toString(16)}}`});return `"${dI.join("")}"`}
function dJ(board,captionOf){let windows=Array.from(board.windows,([id,widgets])=>({id,caption:captionOf(String(id)),widgets:Array.from(widgets,([wid,widget])=>({id:wid,kind:widget.kind,caption:captionOf(`${id}.${wid}`,widget.kind),...dK(widget)}))}));return `${JSON.stringify({ windows }, null, 2)}\n`}
function dK(widget){if(widget.kind==="text")return{value:aq(widget)};if(widget.kind==="list")return{items:widget.items.map(({value})=>value)};return widget.kind==="toggle"?{value:widget.value}:{low:widget.low,high:widget.high,value:widget.value}}
let m=({win,wid})=>`${win}.${wid}`;function S(things,m){let ar=new Map();for(let it of things){let key=m(it);if(!ar.has(key))ar.set(key,[]);ar.get(key).push(it)}
return ar}
let G=value=>(value===13?"\u240d":value===0?"\u2400":String.fromCodePoint(value));function Q(items){let text="";for(let{value}of items)text+=G(value);return text}
let dL=text=>Array.from(text,it=>(aE(it.codePointAt(0))?it.codePointAt(0):0xfffd)),dM=code=>code>=0xd800&&code<0xdc00,dN=code=>code>=0xdc00&&code<0xe000;function T(was,is,cursor=is.length){let aL=Math.min(was.length,is.length),bD=(most,from)=>{let count=from;while(count<most&&was.charCodeAt(was.length-1-count)===is.charCodeAt(is.length-1-count))count+=1;return count},tail=bD(Math.min(aL,is.length-cursor),0),head=0;while(head<aL-tail&&was.charCodeAt(head)===is.charCodeAt(head))head+=1;tail=bD(aL-head,tail);if(head>0&&dM(was.charCodeAt(head-1)))head-=1;if(tail>0&&dN(was.charCodeAt(was.length-tail)))tail-=1;return{head,tail}}
function s(items,name,near){let from=Math.min(near,items.length);for(let U=0;U<=items.length;U++){if(items[from+U]?.name===name)return from+U;if(items[from-U]?.name===name)return from-U}
return -1}
function bE(text){let V=new Map();for(let[,key,quoted]of text.matchAll(/^(\d+(?:\.\d+)?) "(.*)"$/gm)){V.set(key,quoted.replace(/\\u\{(\w{1,6})\}|\\(.)/g,(dO,dP,H)=>H??G(Number.parseInt(dP,16))))}
return V}
let x=(count,thing)=>`${count.toLocaleString("en")} ${thing}${count === 1 ? "" : "s"}`,bF="You typed this here, and it was not sent.",dQ={[6]:"A text or a list has at most 65,536 items.",[7]:"Too much waits for the server. Try again in a moment.",[8]:"The server is out of memory.",[9]:"The board takes no more edits. You can still read it.",[30]:"64 others are connected, and no more can be. This page joins when one has left.",[31]:"The server has no number left for a new connection. It has to be started again.",[32]:"The board takes no more edits. You can still read it."},R=number=>dQ[number]??`The server and this page did not understand each other (fault ${number}).`,aM=(site,name)=>name.startsWith(`${site}.`);function*itemsOf(board){for(let[win,widgets]of board.windows){for(let[wid,{items}]of widgets)for(let item of items??[])yield[`${win}.${wid} ${item.name}`,item]}}
function bG(old,now){if(now.site<=old.site)return !1;let names=new Set();for(let[at,{name}]of itemsOf(old.board))if(!aM(0,name))names.add(at);if(names.size===0)return !0;for(let[at]of itemsOf(now.board))if(names.has(at))return !0;return !1}
function au(edits,site,board){let values=new Map();for(let[at,{name,value}]of itemsOf(board))if(aM(site,name))values.set(at,value);let aN=op=>op.verb==="ins"&&values.get(`${m(op)} ${op.name}`)===op.value;return edits.slice(1+edits.findLastIndex(ops=>ops.some(aN)))}
function dR(edits,old,now){let aO=new Map(),dS=op=>{if(!aO.has(m(op)))aO.set(m(op),dT(old.widget(op.win,op.wid),now.widget(op.win,op.wid)));return aO.get(m(op))(op)};return edits.map(ops=>ops.filter(dS))}
function dT(was,is){if(was.kind!==is?.kind)return()=>!0;if(was.kind==="text")return dU(was,is);if(was.kind!=="list")return()=>was.value!==is.value;let[before,labels]=[was.items.map(({value})=>value),is.items.map(({value})=>value)];if(JSON.stringify(before)===JSON.stringify(labels))return()=>!1;let dV=new Set(was.items.filter(({value})=>!labels.includes(value)).map(({name})=>name));return({verb,name})=>verb==="del"||dV.has(name)}
function dU(was,is){let[before,shown]=[Q(was.items),Q(is.items)];if(before===shown)return()=>!1;let{head,tail}=T(before,shown),names=new Set(),offset=0;for(let{name,value}of was.items){if(offset>=head&&offset<before.length-tail)names.add(name);offset+=G(value).length}
return({verb,name})=>verb==="del"||names.has(name)}
function bH(edits,board,rests=new Map()){let dW=new Map([...Array.from(rests.keys(),it=>[it,[]]),...S(edits.flat(),m)]),words=new Map();for(let[it,ops]of dW){let found=dX(board.widget(...it.split(".").map(Number)),ops,rests.get(it));if(found!=="")words.set(it,found)}
return words}
function dX(widget,ops,job){if(widget.kind==="toggle")return ops.at(-1).value?"on":"off";if(widget.kind==="slider")return String(ops.at(-1).value);let aP=(...verbs)=>new Set(ops.filter(op=>verbs.includes(op.verb)).map(op=>op.name)),made=aP("ins","rel"),w=aP("ins"),v=[...aP("del")].filter(name=>!w.has(name)).length+(job?.deletions??0),d=widget.kind==="list"?widget.items.filter(it=>made.has(it.name)).map(it=>it.value):dY(widget.items,made);if(job?.rest.length>0)d.push((d.pop()??"")+job.rest.map(G).join(""));if(v>0)d.push(`(${x(v, widget.kind === "list" ? "item" : "character")} deleted)`);return d.join("\n")}
function dY(items,names){let runs=[];items.forEach((item,at)=>{if(!names.has(item.name))return;if(at>0&&names.has(items[at-1].name))runs.at(-1).push(item);else runs.push([item])});return runs.map(Q)}
let dZ=1000,ea=131072,eb=1000,ec=100,ed=10,bI=4096,ee=8,n=(at,name=at.name)=>(name===undefined?m(at):`${m(at)} ${name}`),Z=({before,after},way)=>(way==="undo"?[after,before]:[before,after]),bJ=(op,next,labels)=>
op.kind==="list"&&op.verb==="del"&&next?.verb==="ins"&&m(op)===m(next)&&labels.includes(next.value),bK={ins:1,del:-1},aQ=[];class bL{where=0;isAway=!1;isLost=!1;by=null;open=aQ;nth=-1;born=-1;goal=null;heir=this;labels=aQ;constructor({win,wid,kind},name,value){Object.assign(this,{win,wid,kind,name,now:{value,version:0}});this.become(this.now)}
become(now){this.now=now;if(this.kind==="list")this.labels=[...this.labels.slice(-ee),now.value]}}
class aR{#w=[];#at=[];#bs=new Set();#u=new Map();#g=new Map();#o=new Set();#X=0;#dn=0;#au=-1;#bt=!1;#cl=bI;get canUndo(){return this.#w.length>0}
get canRedo(){return this.#at.length>0}
get how(){return this.#w.at(-1)?.how??null}
nameOf(at,name){return this.#u.get(n(at,name))?.heir.name??name}
note({took,nth},how=null,time=0){let step=this.#do(took,how,time);step.time=time;this.#au=nth;this.#bt=!0;for(let it of this.#at.splice(0))this.#X-=it.records.length;for(let at=0;at<took.length;at++){if(!bJ(took[at].op,took[at+1]?.op,[took[at].value]))this.#dp(step,took[at],nth);else this.#dq(step,took[at],took[++at],nth)}
while(this.#w.length>dZ||(this.#X>ea&&this.#w.length>1)){this.#X-=this.#w.shift().records.length}
this.#ag()}
end(){this.#bt=!1}
#do(took,how,time){let h=this.#w.at(-1),step=typeof how==="string"?this.#dr(h,took,how,time)&&h:how&&this.#w.findLast(it=>it.how===how);if(!step)this.#w.push({records:[],how,time});return step||this.#w.at(-1)}
#dr(h,took,how,time){if(h?.how!==how||!this.#bt||time-h.time>eb||h.records.length+took.length>ec)return !1;let{kind,thing}=h.records.at(-1),[{op,left}]=took;if(m(op)!==m(thing)||took.some(it=>it.op.verb!==kind))return !1;if(kind==="ins")return left===thing.name&&thing.now.value!==ed;let I=this.#g.get(n(thing));return left===I||op.name===I}
#dp(step,it,nth){let{op,value}=it,thing=this.#bu(op,op.verb==="ins"?op.value:value);thing.nth=nth;if(op.verb==="ins")thing.born=nth;if(op.verb==="rel"||op.verb==="set")return this.#ds(step,thing,it,nth);let record=this.#bv(step,{kind:op.verb,thing,version:thing.now.version});if(op.verb==="del")this.#cm(thing,it,{record,way:"user"});return record}
#ds(step,thing,{op},nth){let before=thing.now;thing.become({value:op.value,version:this.#av()});let h=step.records.at(-1),goesOn=op.verb==="set"&&h?.thing===thing&&h.after.version===before.version,record=goesOn?h:this.#bv(step,{kind:op.verb,thing,before});record.after=thing.now;return this.#cn(thing,{nth,record,way:"user"})}
#dq(step,{op,value,left},to,nth){let thing=this.#bu(op,value),before={name:op.name,version:thing.where};this.#g.set(n(op),left);this.#M(thing,to.op.name);Object.assign(thing,{where:this.#av(),nth,born:nth});this.#bv(step,{kind:"mov",thing,before,after:{name:thing.name,version:thing.where}})}
#bv(step,what){let record={...what,isUndone:!1};step.records.push(record);this.#X+=1;return record}
#av(){return ++this.#dn}
#bu(op,value){let id=n(op);if(!this.#u.has(id))this.#u.set(id,new bL(op,op.name,value));return this.#u.get(id)}
#M(thing,name){thing.name=name;this.#u.set(n(thing,name),thing)}
#cm(thing,{left},by){this.#g.set(n(thing),left);Object.assign(thing,{isAway:!0,by})}
#co(thing,{op}){this.#g.set(n(thing),op.name);this.#M(thing,op.name);Object.assign(thing,{isAway:!1,born:thing.nth})}
#cn(thing,change){thing.open=[...thing.open.filter(({nth})=>nth>change.nth-ag),change]}
came({raw,took,heard}){raw.forEach((op,at)=>{if(op.verb==="no"||op.verb==="ins")return;let{op:applied,value,left}=took[at],J=applied.verb==="no",thing=this.#u.get(n(op));if(op.verb==="del"&&!J)this.#g.set(n(op),left);if(bJ(op,raw[at+1],thing?.labels??[value]))this.#dt(this.#bu(op,value),raw[at+1].name,J,heard);else if(op.verb==="del")this.#du(thing,op.name);else if(thing)this.#dv(thing,op.value,J,heard)});this.#ag()}
#du(thing,name){if(!thing)return;Object.assign(thing,{isAway:!0,isLost:!0});if(thing.name!==name)this.#o.add(thing)}
#dt(thing,name,J,heard){if(J&&!thing.isAway)this.#bw(thing);this.#M(thing,name);thing.where=this.#av();if(J||thing.open.some(({nth})=>nth>=heard))this.#o.add(thing)}
#bw(thing){let{name,now,nth,labels}=thing,copy=Object.assign(new bL(thing,name,now.value),{isAway:!0,isLost:!0,nth,labels,heir:thing});this.#u.set(n(copy),copy);this.#o.add(copy)}
#dv(thing,value,J,heard){let p={value,version:this.#av()};if(thing.kind==="list"&&value===thing.now.value)this.#o.add(thing);else if(J)this.#dw(thing,p,heard);else thing.become(p)}
#dw(thing,p,heard){thing.open=thing.open.filter(({nth})=>nth>=heard);let now=p;for(let{record,way}of thing.open){let[from,to]=Z(record,way);if(way==="user"&&now.version!==to.version)record.before=now;if(way==="user"||now.version===from.version)now=to}
let aS=now.version!==thing.now.version;thing.become(p);thing.become(now);this.#o.add(thing);if(thing.isAway&&thing.by)this.#dx(thing,thing.by,aS)}
#dx(thing,{record,way},aS){if(way==="user")record.version=thing.now.version;else if(aS&&!thing.isLost){thing.isAway=!1;record.isUndone=!record.isUndone}}
rejoin(old,now,taken=Infinity){this.#o.clear();this.end();this.#au=-1;for(let[win,widgets]of old.windows){for(let[wid,{items}]of widgets){let{names}=now.widget(win,wid);items?.forEach(({name},at)=>names.has(name)||this.#g.set(n({win,wid,name}),items[at-1]?.name??null))}}
for(let[id,thing]of this.#u){let{names}=now.widget(thing.win,thing.wid),[,name]=id.split(" ");if(names?.has(thing.name)||!names?.has(name))continue;if(thing.nth>=taken&&thing.kind==="list"&&!thing.isAway)thing.goal??=thing.name;thing.name=name}
let e=new bM(now,0);for(let thing of new Set(this.#u.values()))this.#dy(thing,e.valueOf(thing),taken)}
#dy(thing,found,taken){let change=thing.open.find(({nth})=>nth>=taken),aa=found!==undefined,f=found===thing.now.value,bN=change?found===Z(change.record,change.way)[0].value:f,comes=!aa&&!thing.isAway&&thing.born>=taken,av=aa&&thing.isAway&&thing.nth>=taken&&bN,bO=aa&&!thing.isAway&&!f&&bN,aT=comes||av||bO||thing.goal!==null,isAway=av||!(aa||comes);if(aa&&!(f||av||bO))thing.become({value:found,version:this.#av()});Object.assign(thing,{isLost:isAway&&!av&&(thing.isLost||!thing.isAway),isAway,by:null});Object.assign(thing,{open:aT&&change?[{...change,nth:Infinity}]:aQ,nth:aT?Infinity:-1,born:comes?Infinity:-1});if(aT)this.#o.add(thing)}
undo(){return this.#cp(this.#w,"undo")}
redo(){return this.#cp(this.#at,"redo")}
#cp(steps,way){let step=steps.pop();if(!step)return null;this.end();this.#bs.add(step);return new bP(way==="undo"?step.records.toReversed():[...step.records],{put:(record,e)=>this.#E(record,way,e),made:(record,took,nth)=>this.#Y(record,way,took,nth),end:left=>this.#d(step,steps,way,new Set(left))})}
#d(step,steps,way,left){if(!this.#bs.delete(step))return;if(left.size>0)steps.push({...step,records:step.records.filter(it=>left.has(it)),how:null});let records=step.records.filter(it=>!left.has(it)),bQ=way==="undo",to=bQ?this.#at:this.#w;if(records.some(({isUndone})=>isUndone===bQ))to.push({...step,records,how:null});else this.#X-=records.length}
#E(record,way,e){let{kind,thing}=record;if(record.isUndone!==(way==="redo")||thing.isLost)return !0;if(kind==="ins"||kind==="del"){let comes=(kind==="ins")===(way==="redo");if(comes)return!thing.isAway||this.#Z(thing,thing.name,e);if(!thing.isAway&&thing.now.version===record.version)e.delete(thing);return !0}
let[from,to]=Z(record,way);if(thing.isAway||(kind==="mov"?thing.where:thing.now.version)!==from.version)return !0;if(kind!=="mov")return e.change(thing,to.value);if(e.roomFor(thing)<0)return !1;e.delete(thing);return this.#Z(thing,to.name,e)}
#Z(thing,name,e){let place=-1;for(let it=name;place<0&&it!==null&&it!==undefined;it=this.#g.get(n(thing,it)))place=e.after(thing,it);return e.insert(thing,Math.max(place,0),name)}
#Y(record,way,took,nth){let{kind,thing}=record,[it,next]=took;record.isUndone=way==="undo";this.#au=thing.nth=nth;if(kind==="mov")this.#dz(thing,Z(record,way),it,next);else if(it.op.verb==="ins")this.#co(thing,it);else if(it.op.verb==="del")this.#cm(thing,it,{record,way});else{thing.become(Z(record,way)[1]);this.#cn(thing,{nth,record,way})}}
#dz(thing,[from,to],{left},{op}){from.name=thing.name;this.#g.set(n(thing),left);this.#g.set(n(thing,to.name),op.name);this.#M(thing,op.name);to.name=op.name;thing.where=to.version}
mend(){if(this.#o.size===0)return null;return new bP(Array.from(this.#o,thing=>({kind:thing.goal===null?"fix":"mov",thing})),{put:({thing},e)=>this.#dA(thing,e),made:({thing},took,nth)=>this.#dB(thing,took,nth),end:()=>{}})}
get torn(){return S(this.#o,m)}
giveUp(board){let left=[...this.#o].filter(({win,wid,isAway})=>!isAway&&board.widget(win,wid).items?.length>=af);for(let thing of left){Object.assign(thing,{isAway:!0,isLost:!0});this.#o.delete(thing)}
return S(left.map(thing=>[m(thing),thing.now.value]),([key])=>key)}
#dA(thing,e){let found=e.valueOf(thing);if(found===undefined&&!thing.isAway)return this.#Z(thing,thing.goal??thing.name,e);if(found!==undefined&&thing.isAway)e.delete(thing);else if(thing.goal!==null){if(e.roomFor(thing)<0)return !1;e.delete(thing);return this.#Z(thing,thing.goal,e)}else if(found!==undefined&&found!==thing.now.value)e.change(thing,thing.now.value);else this.#o.delete(thing);return !0}
#dB(thing,took,nth){this.#au=thing.nth=nth;this.#o.delete(thing);for(let it of thing.open)if(it.nth===Infinity)it.nth=nth;for(let it of took){if(it.op.verb==="del"&&!this.#g.has(n(thing)))this.#g.set(n(thing),it.left);if(it.op.verb!=="ins")continue;if(thing.goal!==null)this.#g.set(n(thing,thing.goal),it.op.name);if(took.length===1)this.#co(thing,it);else this.#M(thing,it.op.name);Object.assign(thing,{goal:null,born:nth})}}
#ag(){if(this.#cq<this.#cl)return;let taken=Math.max(-1,this.#au-ag),things=new Set([...this.#u.values()].filter(it=>it.nth>taken||this.#o.has(it))),v=new Set(),follow=(thing,name=thing.name)=>{for(let it=name,id;this.#g.has((id=n(thing,it)))&&!v.has(id);it=this.#g.get(id))v.add(id)};for(let{records}of[...this.#w,...this.#at,...this.#bs]){for(let{kind,thing,before,after}of records){things.add(thing);if(kind==="mov")for(let{name}of[before,after])follow(thing,name)}}
for(let thing of things)follow(thing);for(let[id,thing]of this.#u)if(!things.has(thing))this.#u.delete(id);for(let id of this.#g.keys())if(!v.has(id))this.#g.delete(id);this.#cl=Math.max(bI,2*this.#cq)}
get #cq(){return this.#u.size+this.#g.size}}
class bM{commands=[];things=new Set();#F;#cr=new Map();constructor(board,near){this.#F=board;this.near=near}
after(at,name=at.name){let mark=this.#cr.get(n(at,name));if(mark!==undefined)return this.#aQ(at,this.commands[mark].place+(this.commands[mark].verb==="ins"?1:0),mark+1);let{items,names}=this.#D(at);if(!names.has(name))return -1;this.near=s(items,name,this.near);return this.#aQ(at,this.near+1,0)}
#aQ(at,place,from){let ef=(it,I)=>it.win===at.win&&it.wid===at.wid&&it.place<I;return this.commands.slice(from).reduce((I,it)=>(ef(it,I)?I+(bK[it.verb]??0):I),place)}
valueOf(thing){let{names,items,value}=this.#D(thing);if(thing.name===undefined)return value;if(!names.has(thing.name))return undefined;this.near=s(items,thing.name,this.near);return items[this.near].value}
delete(thing){this.#E(thing,{verb:"del",place:this.after(thing)-1},thing.name)}
roomFor(thing){let eg=this.commands.filter(it=>m(it)===m(thing));return eg.reduce((room,{verb})=>room-(bK[verb]??0),af-this.#D(thing).items.length)}
insert(thing,place,name){if(this.roomFor(thing)<1)return !1;this.#E(thing,{verb:"ins",place,value:thing.now.value},name);return !0}
change(thing,value){if(thing.name===undefined)this.#E(thing,{verb:"set",value});else this.#E(thing,{verb:"rel",place:this.after(thing)-1,value});return !0}
#E(thing,command,name){if(name!==undefined)this.#cr.set(n(thing,name),this.commands.length);this.things.add(thing);this.commands.push({win:thing.win,wid:thing.wid,...command})}
#D({win,wid}){return this.#F.widget(win,wid)}}
class bP{isFull=!1;#ah;#m;#aw=0;#aa={parts:[],at:0};#ai=0;#cs=0;#bx=new Map();#r=null;constructor(ap,does){this.#ah=ap;this.#m=does}
get left(){return this.#ah.length-this.#aw}
get isDone(){return this.isFull||this.left===0}
get key(){return m(this.#ah[0].thing)}
next(board){let e=new bM(board,this.#ai),parts=[],at=this.#aw;for(;at<this.#ah.length;at++){let task=this.#ah[at],begin=e.commands.length,bR=e.things.has(task.thing)||begin+(task.kind==="mov"?2:1)>D,bS=bR||this.#m.put(task,e);this.isFull=!bS&&begin===0;if(bR||!bS)break;if(e.commands.length>begin)parts.push({task,begin})}
this.#aa={parts,at};this.#ai=e.near;if(parts.length===0)this.#aR();return e.commands}
made({took,nth}){let{parts}=this.#aa;parts.forEach(({task,begin},at)=>this.#m.made(task,took.slice(begin,parts[at+1]?.begin),nth));for(let{task}of parts)this.#aS(m(task.thing),task.kind);this.#r=took.at(-1);this.#aR()}
#aS(key,kind){let it=this.#bx.get(key+kind)??{key,kind,count:0};it.count+=1;this.#bx.set(key+kind,it)}
#aR(){let{parts,at}=this.#aa;this.#cs+=at-this.#aw-parts.length;this.#aw=at;this.#aa={parts:[],at}}
finish(){this.#m.end(this.#ah.slice(this.#aw));return{did:[...this.#bx.values()],skipped:this.#cs,isFull:this.isFull,place:this.#r&&eh(this.#r)}}}
let eh=({op,left})=>({key:m(op),after:op.verb==="del"?left:op.name}),bT=1;function ei(site,edits){let A=edits.map(({ops})=>ops);return{version:bT,site:site.site,edits:`[${edits.map((it) => (it.row ??= ej(it.took)))}]`,widgets:Array.from(new Set(A.flat().map(m)),key=>ek(site.board,...key.split(".").map(Number))),words:[...bH(A,site.board)]}}
let ej=took=>JSON.stringify(took.map(({op:{win,wid,verb,name,value},value:before,left})=>[win,wid,verb,name,value,before,left]));function el(row,board){return row.map(([win,wid,verb,name,value,before,left])=>({op:{win,wid,kind:board.widget(win,wid).kind,verb,name:name??undefined,value},value:before,left}))}
function ek(board,win,wid){let widget=board.widget(win,wid);return{win,wid,kind:widget.kind,runs:widget.items&&em(widget.items),text:widget.kind==="text"?bC(widget):""}}
function em(items){let runs=[];for(let{name}of items){let[site,number]=name.split(".").map(Number),h=runs.at(-1);if(h?.[0]===site&&h[1]+h[2]===number)h[2]+=1;else runs.push([site,number,1])}
return runs}
function en(widgets){let board=new br();for(let{win,wid,kind,runs,text}of widgets){let values=Array.from(text,it=>it.codePointAt(0)),names=runs?.flatMap(([site,first,count])=>Array.from({length:count},(dO,at)=>`${site}.${first + at}`));if(!board.windows.has(win))board.windows.set(win,new Map());board.windows.get(win).set(wid,{kind,items:names?.map((name,at)=>({name,value:values[at]}))})}
return board}
function bU(record,site){if(record.version!==bT)return null;let old=en(record.widgets),edits=JSON.parse(record.edits).map(row=>el(row,old)),A=edits.map(took=>took.map(({op})=>op));if(!eo(record,old,A.flat(),site))return null;let undo=new aR();edits.forEach((took,nth)=>undo.note({took,nth},record));undo.rejoin(old,site.board,A.length-au(A,record.site,site.board).length);return undo}
function eo(record,old,ops,{site,board}){let aN=({win,wid,kind})=>board.widget(win,wid)?.kind===kind;if(site<=record.site||!record.widgets.every(aN))return !1;let keys=new Set(record.widgets.map(m)),made=new Set(ops.map(op=>`${m(op)} ${op.name}`)),[was,is]=[old,board].map(it=>new Map(itemsOf(it))),ep=(at,name)=>aM(record.site,name)&&!made.has(at)&&keys.has(at.split(" ")[0]),eq=([at,{name,value}])=>(was.has(at)?(was.get(at).value??value)!==value:ep(at,name)),others=[...was.keys()].filter(at=>!made.has(at)&&!at.includes(" 0."));return(others.length===0||others.some(at=>is.has(at)))&&![...is].some(eq)}
let aU="records",opened=()=>
new Promise((aV,aW)=>{let W=indexedDB.open("gidzvruka");W.onupgradeneeded=()=>W.result.createObjectStore(aU,{keyPath:"id"});W.onsuccess=()=>aV(W.result);W.onerror=()=>aW(W.error)});class er{#by=null;async change(step){try{this.#by??=await opened();let change=this.#by.transaction(aU,"readwrite");step(change.objectStore(aU));await new Promise((aV,aW)=>Object.assign(change,{oncomplete:aV,onabort:()=>aW(change.error)}))}catch(fault){this.#by=null;throw fault}}}
let aX=200,es=10,et=500,bV="asks",bW="forgets",eu="This browser keeps nothing for this page. What waits is gone once you close this tab.",ev="Look at the board, and copy what is missing there.",ew="This can\u2019t be brought in now.";class ex{isKeeping=!1;isRefused=!1;#a;#aT=new er();#F=location.pathname;#x=`${Date.now()} ${Math.random()}`;#ct=new Set([this.#x]);#N=new Map();#s=new Map();#ax=null;#cu=null;#L=null;#as=aX;#K=!1;constructor(page){this.#a=page;document.addEventListener("input",()=>this.soon())}
soon(){this.#L??=setTimeout(()=>this.#aU(),this.#as)}
now(){this.#aU(!0)}
async #aU(ab=!1){clearTimeout(this.#L);this.#L=null;if(this.#K||this.#a.isJoining)return;let aJ=performance.now(),[before,records]=[this.#s,this.#X(ab)];this.#as=aX+es*(performance.now()-aJ);if(this.#a.untaken.waiting>0&&!records.has(this.#x))this.soon();if(before.size+records.size===0)return;this.#s=records;try{await this.#aT.change(u=>{for(let id of before.keys())if(!records.has(id))u.delete(id);for(let[id,record]of records)if(before.get(id)!==record)u.put(record);u.transaction.commit()});this.#l(!0)}catch{this.#s=new Map([...before,...this.#s]);this.#l(!1,records.size>0)}}
#l(isKeeping,isRefused=!1){if(this.#K)return;this.isKeeping=isKeeping;if(isRefused===this.isRefused)return;this.isRefused=isRefused;if(isRefused)this.#cu=this.#a.notices.add({words:eu});else this.#a.notices.end(this.#cu)}
#X(ab){let found=Array.from(this.#N,([id,{record}])=>[id,record]),w=this.#dC(ab);return new Map(w===null?found:[[this.#x,w],...found])}
#dC(ab){let{texts,untaken,link}=this.#a,{site,edits,oldest}=untaken.kept,isKept=edits.length>0&&(ab||!link.isCarried||performance.now()-oldest>=aX);if(!isKept&&texts.length===0)return null;let time=performance.timeOrigin+(edits.at(-1)?.made??performance.now());return{id:this.#x,owner:this.#x,board:this.#F,time,texts,...(isKept&&ei(site,edits))}}
async open(){for(let[record,from]of await this.#dD().catch(()=>[])){this.#s.set(record.id,record);this.#ay(record,from)}
this.#aU()}
async #dD(){this.#ax=new BroadcastChannel(`gidzvruka ${this.#F}`);this.#ax.onmessage=({data})=>this.#e(data);for(let it of[this.#x,bV])this.#ax.postMessage(it);await this.#aT.change(()=>{});this.isKeeping=!0;await new Promise(ey=>setTimeout(ey,et));let bX=[];await this.#aT.change(u=>{u.getAll().onsuccess=({target})=>{for(let it of target.result.filter(({board,owner})=>board===this.#F&&!this.#ct.has(owner))){let record={...it,owner:this.#x};bX.push([record,it.owner]);u.put(record)}}});return bX}
#e(data){if(data===bV)this.#ax.postMessage(this.#x);else if(data===bW)this.#d();else{this.#ct.add(data);for(let[id,{from,notice}]of this.#N){if(from!==data)continue;this.#N.delete(id);this.#s.delete(id);this.#a.notices.end(notice)}}}
#ay({texts,...rest},from){let{notices,views}=this.#a;for(let{key,words,text}of texts)notices.add({view:views.get(key),words,text});if(rest.words)this.#bz({...rest,texts:[]},from)}
#bz(record,from,undo=null){let{notices,link}=this.#a,{site}=link,aY=(undo??bU(record,site))?.torn;if(aY===undefined)return this.#cv(record);if(aY.size===0)return this.#q(record);let words=`${bY(record)}: ${Array.from(aY, ([key, { length }]) => this.#bA(key, length)).join(", ")}.`,text=record.words.map(([key,it])=>`${this.#bB(key)}:\n${it}`).join("\n\n"),notice=notices.add({words,text,isFolded:!0,choices:{"Bring in":()=>this.#dE(record.id),Discard:()=>this.#q(record)}});return this.#N.set(record.id,{record,from,notice,undo,site})}
#cv(record){let{notices,views}=this.#a;for(let[key,text]of record.words)notices.add({view:views.get(key),words:`${bY(record)}. ${ev}`,text});this.#q(record)}
#bB(key){return this.#a.captionOf(key,this.#a.views.get(key)?.widget.kind)}
#bA(key,count){let{kind}=this.#a.views.get(key).widget,unit={text:"character",list:"item"}[kind];return unit?`${x(count, unit)} in ${this.#bB(key)}`:this.#bB(key)}
#dE(id){let{takingBack,notices,link}=this.#a,{record,from,undo,site}=this.#N.get(id);if(!takingBack.isIdle){notices.add({words:ew});return this.#bz(record,from,undo)}
let aZ=undo===null?bU(record,link.site):site===link.site?undo:null;if(aZ===null)return this.#cv(record);return takingBack.bringIn(aZ,{},isDone=>(isDone?this.#q(record):this.#bz(record,from,aZ)))}
#q({id}){this.#N.delete(id);this.#aU(!0)}
async forget(){this.#ax?.postMessage(bW);this.#d();let ez=({target:{result,source}})=>result.filter(({board})=>board===this.#F).forEach(({id})=>source.delete(id));await this.#aT.change(u=>(u.getAll().onsuccess=ez)).catch(()=>{})}
#d(){this.#K=this.isRefused=!0;this.isKeeping=!1;for(let{notice}of this.#N.values())this.#a.notices.end(notice);this.#N.clear()}}
let bY=({time})=>`You wrote this here on ${new Date(time).toLocaleString("en", { weekday: "long", month: "long", day: "numeric" })}, and it was not sent`,bZ=1500,eA=600,eB=6000,eC=500,ca=matchMedia("(prefers-reduced-motion: reduce)"),found=id=>document.getElementById(id);function b(tag,attributes={},...children){let element=document.createElement(tag);for(let[name,value]of Object.entries(attributes)){if(typeof value==="function")element.addEventListener(name,value);else if(name in element)element[name]=value;else element.setAttribute(name,value)}
element.append(...children);return element}
function ba(ac,children){let kept=new Set(children);for(let it of[...ac.children])if(!kept.has(it))it.remove();let eD=children.find(element=>element.parentElement===ac&&element.contains(document.activeElement)),next=ac.firstChild;for(let it of children){while(it===eD&&it!==next){let after=next.nextSibling;ac.append(next);next=after}
if(it===next)next=next.nextSibling;else ac.insertBefore(it,next)}}
let cb=(elements,{relatedTarget})=>!elements.some(it=>it.contains(relatedTarget)||it.contains(document.activeElement));async function copy(text,button){try{await navigator.clipboard.writeText(text)}catch{let area=b("textarea",{value:text,className:"unseen"});button.after(area);area.select();document.execCommand("copy");area.remove();button.focus()}
button.textContent="Copied";setTimeout(()=>(button.textContent="Copy"),bZ)}
function cc(element){if(!ca.matches)element.animate([{outline:"3px solid"},{outline:"3px solid transparent"}],eA)}
class aw{isStale=!1;#ab=0;#bC=null;constructor(page,win,wid,widget){Object.assign(this,{page,win,wid,widget,key:`${win}.${wid}`,id:`widget-${win}-${wid}`});this.mark=b("span",{className:"mark",ariaHidden:"true"});this.waits=b("span",{className:"waits",ariaHidden:"true",textContent:"not confirmed",hidden:!0});this.name=b("span",{dir:"auto"});this.after=b("span",{className:"after"});this.copy=b("button",{type:"button",className:"quiet",textContent:"Copy",click:()=>copy(bC(this.widget),this.copy)})}
head(caption,...ad){return b("div",{className:"caption"},caption,this.mark,this.waits,this.after,...ad)}
remark(words){this.after.textContent=words;setTimeout(()=>this.after.textContent===words&&(this.after.textContent=""),eB)}
label(){return b("label",{htmlFor:this.id},this.name)}
named(){let caption=this.page.captionOf(this.key,this.widget.kind);this.name.textContent=caption;this.copy.ariaLabel=`Copy ${caption}`}
rebind(widget,f){this.widget=widget;this.isStale=!0;if(!f)this.forgetNames();this.named()}
forgetNames(){}
nameOf(name){return this.page.nameOf(this,name)}
goOn(){}
came(){}
follow(){}
tookBack(){this.isStale=!0}
drops(){return !1}
reveal(){this.update();this.element.scrollIntoView({block:"nearest"})}
confirmed(){}
hide(){}
sendDrafts(){}
get drafts(){return[]}
close(){}
edit(commands,how=null){return this.page.edit(this,commands.map(command=>({...command,win:this.win,wid:this.wid})),how)}
awaits(ad){this.#ab+=ad;if(this.#ab>0)this.#bC??=setTimeout(()=>(this.waits.hidden=!1),eC);else{clearTimeout(this.#bC);this.#bC=null;this.waits.hidden=!0}}
changed(){this.isStale=!0;this.isChanged=!0}
update(){if(!this.isStale||this.isHeld||this.page.isJoining)return;this.isStale=!1;this.draw();if(this.isChanged&&!ca.matches)this.mark.animate([{opacity:1},{opacity:0}],bZ);this.isChanged=!1}}
let cd="gidzvruka seen";function eE(page,isTelling){let captionOf=(key,kind)=>page.captionOf(key,kind),eF={"Download as text":()=>download("board.txt","text/plain",dE(page.board,captionOf)),"Download the printed board":()=>download("board.board","text/plain",dG(page.board)),"Download as JSON":()=>download("board.json","application/json",dJ(page.board,captionOf)),Print:()=>print(),"Forget this board on this device":()=>page.keeping.forget()},X=Object.entries(eF).map(([name,click])=>b("button",{type:"button",textContent:name,click:()=>(found("menu").hidePopover(),click())})),ce=b("input",{type:"checkbox",checked:!0,id:"tells",change:()=>isTelling(ce.checked)});found("menu-own").append(...X,b("p",{className:"check"},ce,b("label",{htmlFor:"tells",textContent:"Say to screen readers what others change"})));document.addEventListener("keydown",a=>a.key==="?"&&!eG(a.target)&&found("menu").showPopover());addEventListener("beforeprint",()=>eH(page));addEventListener("afterprint",()=>document.querySelectorAll("pre.paper").forEach(it=>it.remove()));welcome()}
let eG=element=>element.matches("textarea, input:not([type=checkbox], [type=range])");function download(name,type,text){let href=URL.createObjectURL(new Blob([text],{type:`${type};charset=utf-8`}));b("a",{href,download:name}).click();setTimeout(()=>URL.revokeObjectURL(href),60000)}
function eH(page){for(let view of page.views.values())view.area?.after(b("pre",{className:"paper",dir:"auto",textContent:view.area.value}))}
function welcome(){let cf=step=>{try{return step(localStorage)}catch{return null}};found("welcome").hidden=cf(u=>u.getItem(cd))!==null;found("welcome-close").addEventListener("click",()=>{found("welcome").hidden=!0;cf(u=>u.setItem(cd,"yes"));found("title").focus()})}
class cg{#j=new Set();#e;constructor(told){this.#e=told}
get count(){return this.#j.size}
[Symbol.iterator](){return this.#j.values()}
hold(it,isHeld){if(this.#j.has(it)===isHeld)return;if(isHeld)this.#j.add(it);else this.#j.delete(it);this.#e()}}
class eI extends cg{#O=found("notices");#B=new Map();get isOffering(){return this.#B.size>0||[...this].some(it=>!it.matches(".notice"))}
add({view=null,words,text="",choices={},isFolded=!1}){let element=b("article",{className:"notice",tabIndex:-1},b("p",{className:"notice-words",role:"alert",textContent:words})),X=Object.entries(isFolded?choices:{...choices,Dismiss:()=>{}}).map(([name,click])=>b("button",{type:"button",textContent:name,click:()=>(this.end(element),click())}));if(text!==""){let ch=b("button",{type:"button",textContent:"Copy",click:()=>copy(text,ch)}),area=b("textarea",{rows:3,readOnly:!0,value:text,ariaLabel:words});element.append(isFolded?b("details",{},b("summary",{textContent:"Show"}),area):area);X.splice(-1,0,ch);if(!isFolded)this.#B.set(element,{key:view?.key??"",words,text})}
element.append(b("p",{className:"row wraps"},...X));(view?.element??this.#O).append(element);this.hold(element,!0);return element}
adopt(element){this.#O.append(...element.querySelectorAll(".notice"))}
show(){let[first]=[...this].sort((B,l)=>(B.compareDocumentPosition(l)&Node.DOCUMENT_POSITION_FOLLOWING?-1:1));first?.scrollIntoView({block:"center"});first?.focus()}
get offers(){return[...this.#B.values()]}
end(element){if(element.contains(document.activeElement))found("title").focus();element.remove();this.#B.delete(element);this.hold(element,!1)}}
let ci=200,cj=2000,ck=5000;class eJ{isTelling=!0;#n=null;#cw=!1;#cx=[];#az=new Map();#cy=0;#bD=null;tell({stage,words,notices,since=null,slowly=words}){document.body.dataset.stage=stage;found("state").hidden=stage==="open"&&notices>0;found("notice-count").hidden=notices===0;found("notice-count").textContent=x(notices,"notice");found("try-now").hidden=!["lost","waiting","offline"].includes(stage);let f=since!==null&&this.#n?.since===since;this.#n={words,since,slowly};if(!f)this.#dF();if(since===null||performance.now()-since>=ci)this.#aA()}
#dF(){this.#cx.forEach(clearTimeout);let{since}=this.#n;this.#cx=since===null?[]:[ci,cj].map(F=>setTimeout(()=>this.#aA(),Math.ceil(since+F-performance.now())+1))}
#aA(){let{words,since,slowly}=this.#n,ax=since!==null&&performance.now()-since>=cj;if(ax||this.#cw)this.announce("edits",ax?slowly:words);this.#cw=ax;found("state").textContent=ax?slowly:words}
announce(about,words){if(about==="changes"&&!this.isTelling)return;this.#az.delete(about);this.#az.set(about,words);this.#bD??=setTimeout(()=>this.#cz(),Math.max(0,this.#cy-performance.now()))}
#cz(){this.#bD=null;let[first]=this.#az;if(!first)return;let[about,words]=first;this.#az.delete(about);found("news").textContent=words;this.#cy=performance.now()+ck;if(this.#az.size>0)this.#bD=setTimeout(()=>this.#cz(),ck)}
count(cl){found("who").textContent=cl>0?`${cl} connected`:""}}
let ay=Symbol("no step"),eK={z:"undo",y:"redo"},eL={historyUndo:"undo",historyRedo:"redo"},eM={undo:"Undone",redo:"Done again"},bb={undo:"There is nothing to undo",redo:"There is nothing to do again"},eN="The server was started again, so there is nothing to undo",eO="Undo works again once the link is back",eP="Others have changed this since",eQ="There was no room for the rest",eR={ins:"item",del:"item",rel:"label",mov:"move"};class eS{how=ay;rest=[];isFirst=!1;#F;#m;constructor(way,plan,view,board,does){Object.assign(this,{way,plan,view});this.#F=board;this.#m=does}
get isDone(){return this.plan.isDone}
get left(){return this.plan.left}
next(){return this.plan.next(this.#F)}
made(ops){if(ops.length>0)this.#m.made(ops)}
show(){}
end(){this.#m.ended()}}
class eT{drag=null;#a;#h=new aR();#Y=null;#I=null;#bE=null;#aB=bb.undo;constructor(page){this.#a=page;document.addEventListener("keydown",a=>this.#bF(a));document.addEventListener("beforeinput",a=>this.#dG(a));for(let kind of["pointerdown","focusout"])document.addEventListener(kind,()=>this.#h.end());document.addEventListener("dragstart",()=>(this.drag={}));document.addEventListener("dragend",()=>(this.drag=null));for(let way of["undo","redo"]){found(way).addEventListener("mousedown",a=>a.preventDefault());found(way).addEventListener("click",()=>this.#bG(way))}}
made(it){this.#Y=it}
note(how){if(how===ay)return;this.#h.note(this.#Y,how,performance.now());this.#aB=bb.undo;this.tell()}
came(it){for(let undo of new Set([this.#h,this.#bE??this.#h]))undo.came(it)}
get took(){return this.#Y.took}
nameOf(view,name){return this.#h.nameOf(view,name)}
mend(){let plan=this.#a.isReady&&!this.#I?.isFirst&&this.#h.mend();if(!plan)return;while(!plan.isDone){let commands=plan.next(this.#a.board),ops=commands.length>0?this.#a.edit(this.#cA(commands[0]),commands,ay):[];if(ops===null)return;if(ops.length>0)this.#cB(plan,ops)}
this.#a.drawSoon()}
#cB(plan,ops){plan.made(this.#Y);for(let view of this.#cC(ops).keys()){view.isStale=!0;view.follow()}}
joined(old,f,taken){if(f){this.#h.rejoin(old,this.#a.board,taken);this.bringIn(this.#h,ay)}else{if(this.#h.canUndo||this.#h.canRedo)this.#aB=eN;this.#h=new aR()}
this.tell()}
get isIdle(){return this.#I===null&&this.#a.isReady}
bringIn(undo,how,ended=()=>{}){let plan=undo.mend(),{board}=this.#a,end=()=>{this.#dH(board);ended(plan===null||plan.isDone)};if(plan===null)return end();this.#bE=undo;let job=this.#cD("mend",plan,ops=>this.#cB(plan,ops),()=>(plan.isFull?this.#bw(undo,how,ended):end()));return this.#cE(Object.assign(job,{how,isFirst:!0}))}
lost(){this.#a.stop(this.#I)}
#bF(a){if(/^(Arrow|Page|Home|End)/.test(a.key))this.#h.end();if(a.isComposing||a.altKey||!(a.ctrlKey||a.metaKey))return;let cm=/^[a-z]$/i.test(a.key)?a.key.toLowerCase():a.code.slice(3).toLowerCase(),way=cm==="z"&&a.shiftKey?"redo":eK[cm];if(way===undefined)return;a.preventDefault();this.#bG(way)}
#dG(a){let way=eL[a.inputType];if(way===undefined)return;a.preventDefault();if(!a.isComposing)this.#bG(way)}
tell(){let isIdle=this.#a.takesEdits&&this.#I===null;found("undo").ariaDisabled=String(!(isIdle&&this.#h.canUndo));found("redo").ariaDisabled=String(!(isIdle&&this.#h.canRedo))}
#bG(way){let{activeElement}=document,at=[...this.#a.views.values()].find(({element})=>element.contains(activeElement));if(this.#I!==null||(way==="undo"&&at?.drops(activeElement)))return;if(!this.#a.takesEdits)return this.#bH(this.#a.isReadOnly?R(32):eO,at);if(way==="undo")this.#a.stop(this.#h.how);let plan=way==="undo"?this.#h.undo():this.#h.redo();if(plan===null)return this.#bH(way==="undo"?this.#aB:bb.redo,at);this.#dI(way,plan)}
#dI(way,plan){this.#cE(this.#cD(way,plan,ops=>this.#dJ(plan,ops),()=>this.#A(way,plan)))}
#cD(way,plan,made,ended){return new eS(way,plan,this.#a.views.get(plan.key),this.#a.board,{made,ended})}
#cE(job){this.#I=job;if(!this.#a.isShort(job))this.#a.begin(job);else{this.#a.run(job);job.end()}
this.tell()}
#dJ(plan,ops){plan.made(this.#Y);for(let[view,some]of this.#cC(ops))view.tookBack(some)}
#bw(undo,how,ended){this.#I=null;for(let[key,some]of undo.giveUp(this.#a.board)){let view=this.#a.views.get(key),text=view.widget.kind==="text"?some.map(([,value])=>G(value)).join(""):some.map(([,label])=>label).join("\n");this.#a.notices.add({view,words:R(6),text})}
this.bringIn(undo,how,ended)}
#dH(board){this.#I=this.#bE=null;if(board===this.#a.board)for(let view of this.#a.views.values())view.goOn();this.#a.drawSoon();this.tell()}
#A(way,plan){this.#I=null;let ae=plan.finish(),{key,after}=ae.place??{key:plan.key},view=this.#a.views.get(key);view.reveal(after);this.#a.drawSoon();this.#bH(this.#dK(way,ae),view);this.tell()}
#bH(words,view){if(words!=="")this.#a.say("undo",words,view)}
#dK(way,{did,skipped,isFull}){if(did.length===0)return isFull?R(6):skipped>0?eP:"";let eU=Array.from(S(did,({key})=>key),([key,some])=>this.#bA(this.#a.views.get(key),some)),words=`${eM[way]}: ${eU.join(", ")}`;return isFull?`${words}. ${eQ}`:words}
#bA({widget,name},did){let caption=name.textContent;if(did[0].kind==="set")return `${caption}, now ${aK(widget)}`;let eV=S(did,({kind})=>(widget.kind==="text"?"character":eR[kind])),bc=some=>some.reduce((total,{count})=>total+count,0);return `${Array.from(eV, ([unit, some]) => x(bc(some), unit)).join(" and ")} in ${caption}`}
#cA({win,wid}){return this.#a.views.get(`${win}.${wid}`)}
#cC(ops){return S(ops,op=>this.#cA(op))}}
let eW=4000,eX=300,eY="The server may not have this. Look at the board, and copy what is missing there.";class eZ{#a;#P=[];#aj=null;#aC=null;#cF=null;constructor(page){this.#a=page}
add(edit){this.#P.push({...edit,number:this.#a.editCount,made:performance.now(),at:null});edit.view.awaits(1)}
get oldest(){return this.#P.find(({at})=>at===null)?.made??null}
get waiting(){return this.#ab.length}
get #ab(){return this.#P.filter(({at})=>at===null)}
get kept(){let{old,edits}=this.#aj??{old:this.#a.link.site,edits:this.#P},left=edits.filter(({at})=>at===null);return{site:old,edits:left,oldest:left[0]?.made}}
taken(old,board){let edits=this.#ab,left=au(edits.map(({ops})=>ops),old.site,board).length;return edits[edits.length-left-1]?.number??(edits[0]?.number??old.made+1)-1}
forget(){for(let{view}of this.#ab)view.awaits(-1);this.#P=[]}
get isPending(){return this.#aj!==null}
confirmed(count){let now=performance.now();for(let edit of this.#ab.filter(({number})=>number<=count)){edit.at=now;edit.view.awaits(-1)}
this.#P=this.#cG()}
#cG(){let now=performance.now();return this.#P.filter(({at})=>at===null||now-at<eW)}
lose(old,jobs){let edits=this.#cG();if(edits.length+jobs.length===0)return;for(let{view,at}of edits)if(at===null)view.awaits(-1);this.#aj={old,edits,jobs};this.#P=[]}
settle(f){if(this.#aj===null)return[];let{old,edits,jobs}=this.#aj;this.#aj=null;return f?this.#dL(old,edits,jobs):this.#dM(old,edits,jobs)}
#dL(old,edits,jobs){let cn=edits.filter(({at})=>at===null),untaken=new Set(au(cn.map(({ops})=>ops),old.site,this.#a.board)),left=cn.filter(({ops})=>untaken.has(ops));for(let job of jobs)job.takeBack(left.filter(it=>it.job===job));this.#ay(left.filter(({job})=>!jobs.includes(job)).map(({ops})=>ops),old);return jobs.filter(job=>!job.isDone)}
#dM(old,edits,jobs){let rests=new Map(jobs.map(job=>[job.view.key,job]));this.#ay(dR(edits.map(({ops})=>ops),old.board,this.#a.board),old,rests);return[]}
#ay(edits,old,rests=new Map()){let{notices,views}=this.#a,made=Array.from(bH(edits,old.board,rests),([key,text])=>notices.add({view:views.get(key),words:eY,text}));this.#aC=made.length>0?{edits,old,notices:made}:null}
lookAgain(){if(this.#aC!==null)this.#cF??=setTimeout(()=>this.#dN(),eX)}
#dN(){this.#cF=null;let{link,board,notices}=this.#a;if(this.#aC===null||!link.isOpen||!bG(this.#aC.old,link.site))return;let{edits,old,notices:made}=this.#aC,left=au(edits,old.site,board);if(left.length===edits.length)return;for(let element of made.filter(it=>it.isConnected))notices.end(element);this.#ay(left,old)}}
let fa=[[/[\u2018-\u201b\u2032]/g,"'"],[/[\u201c-\u201f\u2033]/g,'"'],[/[\u2010-\u2015\u2212]/g,"-"],[/\u2026/g,"..."],[/[\t\u00a0\u2007-\u200a\u202f]/g," "]],H=text=>fa.reduce((it,[t,by])=>it.replace(t,by),text);function K(text){let fb=Array.from(new Intl.Segmenter().segment(text),({segment})=>segment),l=fb.find(it=>!bk(it));if(l!==undefined)return `An item can\u2019t have \u201c${l}\u201d. It takes letters without accents, digits, spaces and the signs of a keyboard.`;return text.length>aC?`${text.length} of ${aC} characters`:""}
let fc=text=>H(text).split(/[\r\n]+/).map(it=>it.trim()).filter(it=>it!=="");function co(base,mine,p){if(mine===p||p===base)return mine;if(mine===base)return p;let[first,second]=[cp(base,mine),cp(base,p)].sort((B,l)=>B.start-l.start||B.end-l.end);return fd(first,second)?put(put(base,second),first)||null:null}
function cp(base,now){let{head,tail}=T(base,now);return{start:head,end:base.length-tail,text:now.slice(head,now.length-tail)}}
function fd(B,l){return B.end<l.start||(B.end===l.start&&B.end>B.start&&l.end>l.start)}
let put=(text,{start,end,text:it})=>text.slice(0,start)+it+text.slice(end);class cq{#C=new Map();made(name,number,before,step){this.#C.set(name,[...(this.#C.get(name)??[]),{number,before,step}])}
rename(old,name){if(this.#C.has(old))this.#C.set(name,this.#C.get(old));this.#C.delete(old)}
forget(name){this.#C.delete(name)}
confirmed(count){for(let name of this.#C.keys())this.#Q(name,count)}
came(name,p,heard){let[first]=this.#Q(name,heard);if(!first)return null;let{before:base,step}=first;first.before=p;return{base,step}}
isOpen(name,heard){return this.#Q(name,heard).length>0}
#Q(name,count){let open=(this.#C.get(name)??[]).filter(({number})=>number>=count);if(open.length>0)this.#C.set(name,open);else this.#C.delete(name);return open}}
let cr=80,cs=12;class fe{#c;#aD;#d=null;#aV=null;constructor(list,row){this.#c=list;this.#aD=row;this.element=b("button",{type:"button",className:"handle",textContent:"\u2195",title:"Drag, or press an arrow key",mousedown:a=>a.preventDefault(),pointerdown:a=>a.button===0&&this.#dO(a.pointerId)})}
set label(label){this.element.ariaLabel=`Move ${label}`}
#dO(ff){if(this.#d||this.element.ariaDisabled==="true"||this.#c.hasJustMoved(this.#aD))return;let ae=new AbortController(),az=(kind,step)=>addEventListener(kind,step,{signal:ae.signal,capture:!0}),M=step=>a=>a.pointerId===ff&&step(a);this.#d=()=>ae.abort();this.#aD.element.classList.add("dragged");az("pointermove",M(({clientY})=>this.#aW(clientY)));az("pointerup",M(()=>this.#bI(!0)));az("pointercancel",M(()=>this.#bI(!1)));az("keydown",a=>a.key==="Escape"&&this.#bI(!1))}
#aW(height){if(height<cr)scrollBy(0,-cs);if(height>innerHeight-cr)scrollBy(0,cs);this.#aV=this.#c.rowsAbove(height);this.#c.markLanding(this.#aV)}
#bI(fg){let ct=this.#aV;this.#d();this.#d=null;this.#aV=null;this.#aD.element.classList.remove("dragged");this.#c.markLanding(null);if(fg&&ct!==null)this.#c.moveBelow(this.#aD,ct)}}
function cu(field){let C=field.value,cursor=H(C.slice(0,field.selectionEnd)).length;if(H(C)===C)return;field.value=H(C);field.setSelectionRange(cursor,cursor)}
class cv{element=b("div");#bJ;#x;#b="";constructor(field,id){this.#bJ=field;this.#x=id}
show(bd){let shown=JSON.stringify(bd.map(({words,choices})=>[words,Object.keys(choices)]));if(shown===this.#b)return;this.#b=shown;this.element.replaceChildren(...bd.map(it=>fh(this.#x,it)));if(bd.length>0)this.#bJ.setAttribute("aria-describedby",this.#x);else this.#bJ.removeAttribute("aria-describedby")}}
function fh(id,{words,choices}){let X=Object.entries(choices).map(([name,click])=>b("button",{type:"button",textContent:name,mousedown:a=>a.preventDefault(),click}));return b("div",{className:"row wraps"},b("p",{id,className:"hint",textContent:words}),...X)}
class fi{isGhost=!1;movedAt=-Infinity;#c;#p=null;#bK=!1;#ac=!1;#B=[];#cH="Others";#bL="others";#R;constructor(list,id,{name,value}){this.#c=list;Object.assign(this,{name,label:value});this.field=b("input",{type:"text",value,autocomplete:"off",dir:"auto",ariaLabel:`Item of ${list.name.textContent}`,focus:()=>(this.#cI(),(this.#p??=this.label)),input:a=>a.isComposing||this.#y(),compositionend:()=>this.#y(),paste:a=>list.pasted(a,this.field,this),keydown:a=>a.key==="Escape"&&!a.isComposing&&this.takeBack()});this.handle=new fe(list,this);this.remove=b("button",{type:"button",textContent:"\u00d7",click:()=>list.remove(this)});this.#R=new cv(this.field,id);this.element=b("li",{tabIndex:-1,focusout:a=>cb([this.field,this.#R.element],a)&&this.#bM()},b("div",{className:"row"},this.handle.element,this.field,this.remove),this.#R.element);this.#aE()}
#aE(){this.handle.label=this.label;this.remove.ariaLabel=`Delete ${this.label}`}
get hasFocus(){return document.activeElement===this.field}
get isDraft(){return this.#p!==null&&(this.field.value!==this.#p||(this.isGhost&&this.#bK))}
get isKept(){return this.#p!==null}
get #aX(){return this.isDraft?K(this.#aY):""}
get #aY(){return H(this.field.value).trim()}
get isGood(){return this.#aX===""}
setOpen(isOpen){this.field.readOnly=!isOpen;for(let it of[this.handle.element,this.remove])it.ariaDisabled=String(!isOpen)}
show(label,by="Others"){if(label===this.label&&!this.isGhost)return;Object.assign(this,{label,isGhost:!1});this.#cH=by;this.#bL="others";if(this.#p===null)this.field.value=label;this.#aE();this.tell()}
#cI(){let label=this.#c.labelOf(this);if(label!==undefined&&!this.#c.page.isJoining)this.show(label)}
putBack(label){let cw=this.#p!==null&&!this.isDraft;if(cw)this.#p=null;this.show(label,"Undo");if(cw)this.#d()}
isTakenAway(){this.#bL="undo";if(!this.isDraft)this.#p=null}
outlive(){this.isGhost=!0;this.#ac=!1;this.tell()}
forget(){this.#p=null;this.#B=[];this.isGhost=!1;this.tell()}
loses(){this.#bK=!0;this.#p??=this.label}
races(base,p,step){let label=co(base,this.label,p);if(label===this.label)return;if(label===null||K(label)!==""||!this.#c.relabel(this,label,step))this.#B.push(p);this.tell()}
send(){if(!this.isDraft||this.isGhost||!this.isGood||this.#c.page.isJoining)return;this.#cI();let label=co(this.#p,this.#aY,this.label);this.#ac=label===null||K(label)!=="";if(!this.#ac)this.#E(label);this.tell()}
#E(label){if(label==="")this.#c.removeEmptied(this);else if(label===this.label||this.#c.relabel(this,label))this.#d()}
#y(){cu(this.field);this.#ac=!1;this.tell()}
#bM(){this.send();if(this.isDraft)this.tell();else if(this.isGhost)this.#c.drop(this);else this.#d()}
#d(){this.#p=this.hasFocus?this.label:null;this.#ac=!1;this.field.value=this.label;this.tell()}
takeBack(){if(this.isGhost)this.#c.drop(this);else this.#d()}
#dP(){this.#p=this.label;this.send()}
#dQ(){let label=this.#aY===""?this.label:this.#aY;if(K(label)!==""||!this.#c.addAgain(this,label))return;this.#bK=!1;this.#d()}
#cJ(cx,fj){if(fj&&!this.#c.relabel(this,cx))return;this.#B.splice(this.#B.indexOf(cx),1);this.tell()}
tell(){let cy=this.#aX!==""||this.#ac;this.element.classList.toggle("ghost",this.isGhost);this.field.ariaInvalid=String(cy);for(let it of[this.handle.element,this.remove])it.hidden=this.isGhost;this.#R.show([...this.#dR()]);this.#c.page.notices.hold(this.element,this.#B.length>0||((cy||(this.isGhost&&this.isDraft))&&!this.hasFocus));this.#c.page.drafts.hold(this,this.isDraft)}
*#dR(){let p=`${this.#cH} wrote \u201c${this.label}\u201d`,choices=(fk,take)=>({"Keep mine":fk,"Take theirs":take});if(this.#aX!=="")yield{words:this.#aX,choices:this.hasFocus||this.isGhost?{}:{Drop:()=>this.takeBack()}};if(this.isGhost)yield{words:`Deleted by ${this.#bL}`,choices:{"Add it again":()=>this.#dQ(),Drop:()=>this.takeBack()}};else if(this.#ac)yield{words:p,choices:choices(()=>this.#dP(),()=>this.takeBack())};else if(this.#p!==null&&this.label!==this.#p)yield{words:p,choices:{}};for(let it of this.#B)yield{words:`Others wrote \u201c${it}\u201d at the same time`,choices:choices(()=>this.#cJ(it,!1),()=>this.#cJ(it,!0))}}}
class fl{movedAt=-Infinity;#c;#aZ;#R;constructor(list,id){this.#c=list;this.field=b("input",{type:"text",id,placeholder:"add an item",autocomplete:"off",dir:"auto",enterKeyHint:"done",input:a=>a.isComposing||this.#y(),compositionend:()=>this.#y(),paste:a=>list.pasted(a,this.field)});this.#aZ=b("button",{type:"button",textContent:"+",click:()=>this.add()});this.#R=new cv(this.field,`${id}-hint`);this.element=b("div",{className:"foot",focusout:a=>cb([this.element],a)&&this.add()},b("div",{className:"row"},this.field,this.#aZ),this.#R.element)}
named(caption){this.field.ariaLabel=`Add to ${caption}`;this.#aZ.ariaLabel=`Add the item to ${caption}`}
setOpen(isOpen){this.field.readOnly=!isOpen;this.#aZ.ariaDisabled=String(!isOpen)}
get hasFocus(){return document.activeElement===this.field}
get isDraft(){return this.#ba!==""}
get #ba(){return H(this.field.value).trim()}
add(){if(this.isDraft&&K(this.#ba)===""&&this.#c.append(this.#ba))this.field.value="";this.#l()}
takeBack(){this.field.value="";this.#l()}
#y(){cu(this.field);this.#l()}
#l(){let{notices,drafts}=this.#c.page,fault=K(this.#ba);this.field.ariaInvalid=String(fault!=="");this.#R.show(fault===""?[]:[{words:fault,choices:{}}]);notices.hold(this.element,fault!==""&&!this.hasFocus);drafts.hold(this,this.isDraft)}}
let fm=500,ARROWS={ArrowUp:-1,ArrowDown:1};class fn extends aw{#i=new Map();#b=[];#ad=new cq();#cK=!0;#aS=0;#cL=!1;constructor(...given){super(...given);this.name.id=`${this.id}-caption`;this.list=b("ol",{role:"list",tabIndex:-1,"aria-labelledby":this.name.id});this.foot=new fl(this,this.id);this.element=b("div",{className:"widget",role:"group","aria-labelledby":this.name.id,keydown:a=>a.isComposing||this.#bF(a)},this.head(this.name,this.copy),this.list,this.foot.element);for(let kind of["mousedown","click"])this.element.addEventListener(kind,a=>this.#dS(a),!0);this.named();this.draw()}
named(){super.named();this.foot.named(this.name.textContent)}
setOpen(isOpen){this.#cK=isOpen;for(let it of[...this.#b,this.foot])it.setOpen(isOpen)}
rebind(widget,f){this.#ad=new cq();super.rebind(widget,f)}
forgetNames(){let{items}=this.widget;this.#i=new Map();this.#b.filter(row=>!row.isGhost).forEach((row,at)=>{let item=items[at];if(item&&(!row.isDraft||item.value===row.label))this.#i.set(item.name,Object.assign(row,{name:item.name}));else this.#H(row)})}
came({verb,name,value},heard){let now=this.nameOf(name),row=this.#i.get(name)??this.#i.get(now);if(!row)return;if(verb==="del")this.#cM(row,now);if(verb==="del"&&row.name===name&&this.#ad.isOpen(name,heard))row.loses();let be=verb==="rel"?this.#ad.came(row.name,value,heard):null;if(be!==null)row.races(be.base,value,be.step)}
follow(){for(let row of[...this.#i.values()])if(!this.widget.names.has(row.name))this.#cM(row,this.nameOf(row.name))}
#cM(row,name){let{names}=this.widget;if(!names.has(row.name)&&names.has(name))this.#M(row,name)}
#M(row,name){let l=this.#i.get(name);this.#ad.rename(row.name,name);if(l?.isKept&&!row.isKept)return this.#H(row);if(l)this.#H(l);this.#i.delete(row.name);this.#i.set(name,Object.assign(row,{name}))}
tookBack(ops){super.tookBack();this.follow();for(let{verb,name,value}of ops){this.#ad.forget(name);if(verb==="rel")this.#i.get(name)?.putBack(value);if(verb==="del")this.#i.get(name)?.isTakenAway()}}
reveal(name){this.update();let element=this.#i.get(name)?.element??this.element;element.scrollIntoView({block:"nearest"});cc(element)}
drops(field){let it=[...this.#b,this.foot].find(e=>e.field===field&&e.isDraft);it?.takeBack();return it!==undefined}
confirmed(count){this.#ad.confirmed(count)}
draw(){let{items,names}=this.widget,[before,height]=[this.#b,this.isChanged?this.list.offsetHeight:0];for(let row of before)if(!row.isGhost&&!names.has(row.name))this.#H(row);for(let item of items)(this.#i.get(item.name)??this.#dT(item)).show(item.value);this.#b=this.#dU(items);this.#dV(before);ba(this.list,this.#b.map(({element})=>element));if(this.isChanged)this.#aQ(before,height)}
#dT(item){this.#aS+=1;let row=new fi(this,`${this.id}-hint-${this.#aS}`,item);row.setOpen(this.#cK);this.#i.set(item.name,row);return row}
#H(row){this.#i.delete(row.name);if(row.isKept)row.outlive();else row.forget()}
#dU(items){let aA=new Map([[null,[]]]),h=null;for(let row of this.#b){if(row.isGhost)aA.get(h).push(row);else if(this.#i.get(row.name)===row)aA.set((h=row),[])}
return[...aA.get(null),...items.map(({name})=>this.#i.get(name)).flatMap(row=>[row,...(aA.get(row)??[])])]}
#dV(before){let at=before.findIndex(({element})=>element.contains(document.activeElement));if(at<0||this.#b.includes(before[at]))return;let next=[...before.slice(at+1),...before.slice(0,at).reverse()].find(row=>this.#b.includes(row));(next?.element??this.list).focus()}
#aQ(before,height){let first=this.#b.findIndex((row,at)=>row!==before[at]),f=first<0&&this.#b.length===before.length;if(f&&this.list.offsetHeight===height)return;let E=f||first>=0?this.#b.slice(Math.max(first,0)):[];for(let it of[...E,this.foot])it.movedAt=performance.now()}
#dS(a){if(a.detail===0)return;let bf=[...this.#b,this.foot].find(({element})=>element.contains(a.target)),cz=a.detail>1&&a.target.closest("button")!==null;if(a.type==="mousedown")this.#cL=cz||(bf!==undefined&&this.hasJustMoved(bf));if(!this.#cL)return;a.preventDefault();a.stopPropagation();if(!cz)cc(bf.element)}
hasJustMoved(row){return performance.now()-row.movedAt<fm}
labelOf({name}){let{items}=this.widget;return items[s(items,name,0)]?.value}
relabel(row,label,step={}){let place=s(this.widget.items,row.name,0),before=this.widget.items[place]?.value;if(place<0||!this.edit([{verb:"rel",place,value:label}],step))return !1;this.#ad.made(row.name,this.page.editCount-1,before,step);row.show(label);return !0}
#dW(row,way){let place=s(this.widget.items,row.name,0);if(place>=0)this.#aW(row,place,place+way)}
moveBelow(row,rows){let{items,names}=this.widget,h=rows.findLast(it=>it!==row&&names.has(it.name)),place=s(items,row.name,0),at=h?s(items,h.name,0):-1;if(place>=0)this.#aW(row,place,at<place?at+1:at)}
#aW(row,place,to){let{items}=this.widget,{value}=items[place],ops=place!==to&&items[to]?this.edit([{verb:"del",place},{verb:"ins",place:to,value}]):null;if(ops!==null)this.#M(row,ops[1].name);this.draw();row.element.scrollIntoView({block:"nearest"});this.page.say("move",`${value}, ${s(items, row.name, to) + 1} of ${items.length}`)}
rowsAbove(height){let fo=({element})=>element.getBoundingClientRect().top+element.offsetHeight / 2;return this.#b.slice(0,1+this.#b.findLastIndex(row=>fo(row)<height))}
markLanding(rows){for(let row of this.#b)row.element.classList.toggle("lands",row===rows?.at(-1));this.list.classList.toggle("lands",rows?.length===0)}
remove(row){let place=s(this.widget.items,row.name,0);if(place<0||!this.edit([{verb:"del",place}]))return -1;row.forget();this.draw();return place}
removeEmptied(row){let{label}=row,place=this.remove(row);if(place>=0)this.page.notices.add({view:this,words:`\u201c${label}\u201d is deleted, since you emptied it.`,choices:{"Add it again":()=>this.#Z(place,[label])}})}
drop(row){row.forget();this.draw()}
addAgain(row,label){let before=this.#b.slice(0,this.#b.indexOf(row)).findLast(it=>!it.isGhost),ops=this.edit([{verb:"ins",place:before?s(this.widget.items,before.name,0)+1:0,value:label}]);if(!ops)return !1;Object.assign(row,{name:ops[0].name,label,isGhost:!1});this.#i.set(row.name,row);this.draw();return !0}
pasted(a,field,row){let text=a.clipboardData.getData("text/plain"),d=fc(field.value.slice(0,field.selectionStart)+text+field.value.slice(field.selectionEnd));if(d.length<2||field.readOnly)return;a.preventDefault();field.value=row?d.shift():"";field.dispatchEvent(new InputEvent("input"));this.#Z(row&&!row.isGhost?s(this.widget.items,row.name,0)+1:this.widget.items.length,d)}
#Z(place,labels){let left=labels.filter(it=>K(it)===""),fp=labels.filter(it=>K(it)!==""),step={};for(let at=Math.min(place,this.widget.items.length);left.length>0;){let commands=left.slice(0,D).map((value,ad)=>({verb:"ins",place:at+ad,value}));if(!this.edit(commands,step))break;at+=commands.length;left.splice(0,commands.length)}
this.draw();let rest=[...left,...fp];if(rest.length>0)this.page.notices.add({view:this,words:`${x(rest.length, "line")} could not be added.`,text:rest.join("\n")})}
append(label){let cA=this.edit([{verb:"ins",place:this.widget.items.length,value:label}])!==null;if(cA)this.draw();return cA}
goOn(){this.sendDrafts()}
hide(){for(let row of[...this.#b])row.send()}
sendDrafts(){for(let row of this.#b.filter(({hasFocus})=>!hasFocus))row.send();if(!this.foot.hasFocus)this.foot.add()}
get drafts(){return[...this.#b,this.foot].filter(it=>it.isDraft).map(({field})=>field.value)}
close(){for(let row of this.#b)row.forget();this.foot.takeBack()}
#bF(a){let row=this.#b.find(({element})=>element.contains(a.target));if(a.key in ARROWS&&row&&(a.altKey||a.target===row.handle.element)){a.preventDefault();return this.#dW(row,ARROWS[a.key])}
if(a.target!==this.foot.field)return this.#cN(a);if(a.key==="Enter")return this.foot.add();return a.key==="Escape"?this.foot.takeBack():this.#cN(a)}
#cN(a){let way={...ARROWS,Enter:1}[a.key],row=this.#b.find(({element,field})=>a.target===element||a.target===field);if(!way||!(row||a.target===this.foot.field))return;let fields=[...this.#b,this.foot].map(({field})=>field),next=a.target===row?.element?row.field:fields[fields.indexOf(a.target)+way];a.preventDefault();if(a.key==="Enter"&&row&&!row.isGood)return;next?.focus()}}
class fq extends aw{constructor(...given){super(...given);this.box=b("input",{type:"checkbox",role:"switch",id:this.id,change:()=>this.edit([{verb:"set",value:this.box.checked}])||this.draw()});this.element=b("div",{className:"widget across"},this.head(this.label()),this.box);this.named();this.draw()}
setOpen(isOpen){this.box.ariaDisabled=String(!isOpen)}
draw(){this.box.checked=this.widget.value}}
class fr extends aw{#bN=null;constructor(...given){super(...given);let{low:min,high:max}=this.widget;this.range=b("input",{type:"range",id:this.id,min,max,step:1,pointerdown:()=>(this.#bN={}),input:()=>this.#dX(),change:()=>this.#dY()});this.number=b("input",{type:"number",min,max,step:"any",change:()=>this.#y(),input:()=>(this.hint.hidden=!0)});this.hint=b("p",{className:"hint",textContent:`${min} to ${max}`,hidden:!0});this.element=b("div",{className:"widget"},this.head(this.label()),b("div",{className:"row wraps"},cB(min),this.range,cB(max),this.number),this.hint);this.named();this.draw()}
named(){super.named();this.number.ariaLabel=`${this.name.textContent}, as a number`}
setOpen(isOpen){this.range.ariaDisabled=String(!isOpen);this.number.readOnly=!isOpen}
#dX(){this.number.value=this.range.value;this.frame??=requestAnimationFrame(()=>this.#bO(Number(this.range.value)))}
#dY(){this.#bO(Number(this.range.value));this.#bN=null}
#y(){let{low,high,value}=this.widget,C=this.number.valueAsNumber,bg=Number.isNaN(C)?value:Math.min(high,Math.max(low,Math.round(C)));this.hint.hidden=Number.isNaN(C)||bg===Math.round(C);if(!this.hint.hidden)this.page.say("bounds",this.hint.textContent);this.number.value=bg;this.#bO(bg)}
#bO(value){cancelAnimationFrame(this.frame);this.frame=null;if(value!==this.widget.value)this.edit([{verb:"set",value}],this.#bN);this.draw()}
get #cO(){return document.activeElement===this.number&&this.number.value!==this.shown}
drops(field){if(field!==this.number||!this.#cO)return !1;this.number.value=this.shown;return !0}
draw(){let fs=this.#cO;this.range.value=this.widget.value;if(!fs)this.number.value=this.widget.value;this.shown=this.range.value}}
let cB=value=>b("span",{className:"bound",textContent:value,ariaHidden:"true"});class ft{#z=0;#ai=0;constructor(view,place,after,steps,how=null){Object.assign(this,{view,place,after,steps});this.how=typeof how==="string"&&steps.length>D?this:(how??this);this.#ai=place}
get isDone(){return this.steps.length===0}
get left(){return this.steps.length}
get rest(){return this.steps.filter(({value})=>value!==undefined).map(({value})=>value)}
get deletions(){return this.steps.length-this.rest.length}
takeBack(edits){if(edits.length===0)return;let steps=edits.flatMap(({ops})=>ops).map(({verb,name,value})=>(verb==="ins"?{value}:{name}));this.steps.unshift(...steps);this.after=edits[0].after}
next(){let{win,wid,widget}=this.view,commands=[],room=af-widget.items.length,start=this.#dZ(widget.items),v=[],cC=place=>v.filter(it=>it<place).length,fu=0;this.place=start;this.#z=0;for(let{name,value}of this.steps.slice(0,D)){let cD=name===undefined;if(cD&&room--<=0&&commands.length>0)break;this.#z+=1;if(cD)commands.push({verb:"ins",win,wid,place:start-cC(start)+fu++,value});else{let found=s(widget.items,this.view.nameOf(name),this.#ai);if(found<0)continue;commands.push({verb:"del",win,wid,place:found-cC(found)});v.push(found);this.#ai=found;room+=1}}
return commands}
made(ops){this.steps.splice(0,this.#z);let h=ops.findLast(op=>op.verb==="ins");if(h)Object.assign(this,{after:h.name,place:h.place+1})}
show(){Object.assign(this.view,{isStale:!0,caret:this.place})}
end(){}
#dZ(items){if(this.after===null)return 0;let found=s(items,this.view.nameOf(this.after),this.place-1);return found>=0?found+1:Math.min(this.place,items.length)}}
let fv=512,fw=1000,fx={insertText:"type",insertLineBreak:"type",deleteContentBackward:"delete",deleteContentForward:"delete"},fy=["deleteByDrag","insertFromDrop"];class fz extends aw{caret=null;#bP={};#Q=0;#ak="";constructor(...given){super(...given);this.area=b("textarea",{id:this.id,rows:3,dir:"auto",input:a=>(a.isComposing?this.#ea():this.#y(this.#eb(a))),focus:()=>this.#bQ(),paste:a=>this.#ec(a),compositionstart:()=>this.#ed(),compositionend:()=>this.#ee()});this.element=b("div",{className:"widget"},this.head(this.label(),this.copy),this.area);new IntersectionObserver(([{isIntersecting}])=>isIntersecting||this.#bQ()).observe(this.area);this.named();this.#bR(0)}
setOpen(isOpen){this.area.readOnly=!isOpen||this.page.isBusyWith(this)}
forgetNames(){for(let text of this.drafts)this.page.notices.add({view:this,words:bF,text});this.items=null}
get drafts(){let{value}=this.area;if(value===this.shown)return[];let{head,tail}=T(this.shown,value);return[value.slice(head,value.length-tail)].filter(it=>it!=="")}
#bb(items,shown){this.items=items;this.shown=shown}
#bR(cursor){this.#bb([...this.widget.items],Q(this.widget.items));this.area.value=this.shown;this.area.setSelectionRange(cursor,cursor)}
#ed(){this.isHeld=!0;this.#bP={}}
#ea(){clearTimeout(this.pause);this.pause=setTimeout(()=>this.items!==null&&this.#y(this.#bP),fw)}
changed(){super.changed();if(!this.isHeld)return;this.#Q+=1;this.after.textContent=`${x(this.#Q, "change")} ${this.#Q === 1 ? "comes" : "come"} after this word`}
#ee(){clearTimeout(this.pause);this.isHeld=!1;this.#Q=0;this.after.textContent="";if(this.items!==null)this.#y(this.#bP);this.page.drawSoon()}
#eb({inputType}){return fy.includes(inputType)?this.page.takingBack.drag:fx[inputType]}
goOn(){if(!this.isHeld)this.#y()}
#y(how){this.#bQ();if(this.page.isJoining)return;let{value,selectionEnd}=this.area,{head,tail}=T(this.shown,value,selectionEnd);if(value!==this.shown)this.#cP(head,this.shown.length-tail,value.slice(head,value.length-tail),how)}
#ec(a){let text=a.clipboardData.getData("text/plain").replace(/\r\n?/g,"\n");if(text.length<=fv||this.area.readOnly||this.page.isJoining)return;a.preventDefault();this.#cP(this.area.selectionStart,this.area.selectionEnd,text)}
#cP(start,end,text,how){let[from,to]=[this.#O(start),this.#O(end)],values=dL(text),v=this.items.slice(from,to).reverse(),steps=[...v.map(({name})=>({name})),...values.map(value=>({value}))],job=new ft(this,from,this.items[from-1]?.name??null,steps,how);if(!this.page.isShort(job)){this.#bR(start);this.page.begin(job);return}
let ops=this.page.run(job);if(ops===null){this.#bR(start);return}
let fA=ops.filter(op=>op.verb==="ins").map(({name,value})=>({name,value}));this.#bb([...this.items.slice(0,from),...fA,...this.items.slice(to)],this.area.value);if(values.map(G).join("")!==text)this.#aA()}
#O(offset){return this.shown.length===this.items.length?offset:Array.from(this.shown.slice(0,offset)).length}
#al(place){return this.shown.length===this.items.length?place:Q(this.items.slice(0,place)).length}
draw(){if(this.items===null)this.#ef();else this.#aA()}
reveal(name){let place=name?s(this.widget.items,name,0)+1:0;if(name!==undefined)Object.assign(this,{caret:place,isStale:!0});this.update();super.reveal()}
#aA(){let{selectionStart,selectionEnd,selectionDirection}=this.area,end=this.caret??this.#eg(this.#O(selectionEnd)),start=this.caret!==null||selectionStart===selectionEnd?end:Math.min(this.#eh(this.#O(selectionStart)),end);this.caret=null;this.#E();this.#cQ(this.#al(start),this.#al(end),selectionDirection)}
#ef(){let{selectionStart,selectionEnd,selectionDirection,value}=this.area;this.#bb([...this.widget.items],Q(this.widget.items));let{head,tail}=T(value,this.shown);this.#bS(0,value,this.shown);let E=offset=>(offset<=head?offset:offset>=value.length-tail?offset+this.shown.length-value.length:head);this.#cQ(E(selectionStart),E(selectionEnd),selectionDirection)}
#E(){let{area}=this,was=area.value,[before,now]=this.isChanged?this.#cR(this.#O(this.#ei())):[0,0],top=this.#al(before);this.#bb([...this.widget.items],Q(this.widget.items));if(was===this.shown)return;let{scrollHeight}=area;if(this.isChanged)this.#ej();let fB=this.#bS(0,was.slice(0,top),this.shown.slice(0,this.#al(now)));if(fB)area.scrollTop+=area.scrollHeight-scrollHeight;this.#bS(this.#al(now),was.slice(top),this.shown.slice(this.#al(now)))}
#bS(offset,was,is){if(was===is)return !1;let{head,tail}=T(was,is);this.area.setRangeText(is.slice(head,is.length-tail),offset+head,offset+was.length-tail,"preserve");return !0}
#ej(){let{area}=this,{top,bottom,height}=area.getBoundingClientRect();if(this.#ak!==""||area.style.height!==""||bottom<0||top>innerHeight)return;this.#ak=`${height}px`;area.style.height=this.#ak}
#bQ(){if(this.#ak!==""&&this.area.style.height===this.#ak)this.area.style.height="";this.#ak=""}
#ei(){let{area}=this,{left,top}=area.getBoundingClientRect(),cE=Math.max(top,document.querySelector("header").offsetHeight);if(area.scrollTop===0&&cE===top)return 0;let{paddingLeft,lineHeight}=getComputedStyle(area),found=document.caretPositionFromPoint?.(left+area.clientLeft+Number.parseFloat(paddingLeft)+1,cE+area.clientTop+Number.parseFloat(lineHeight)/ 2);return found?.offsetNode===area?found.offset:0}
#cQ(start,end,cF){let{area}=this,f=start===area.selectionStart&&end===area.selectionEnd&&(start===end||cF===area.selectionDirection);if(document.activeElement===area&&!f)area.setSelectionRange(start,end,cF)}
#eg(place){let{items,names}=this.widget;for(let at=place-1;at>=0;at--){let name=this.nameOf(this.items[at].name);if(names.has(name))return s(items,name,at)+1}
return 0}
#eh(place){return this.#cR(place)[1]}
#cR(place){let{items,names}=this.widget;for(let at=place;at<this.items.length;at++){let name=this.nameOf(this.items[at].name);if(names.has(name))return[at,s(items,name,at)]}
return[this.items.length,items.length]}}
let fC={text:fz,list:fn,toggle:fq,slider:fr},fD={text:"Text",list:"List",toggle:"Toggle",slider:"Slider"},fE="Nothing here yet",fF="Whoever runs this server adds texts, lists, toggles and sliders: stop it, write lines such as these into the file of the board, and start it again.",fG='window 1\ntext 1 "Hi"\nlist 2 "bread" "milk"\ntoggle 3 off\nslider 4 0 10 5';class fH{views=new Map();#a;#bc;#bT=new Map();constructor(page,V){this.#a=page;this.#bc=bE(V)}
captionOf(key,kind){return this.#bc.get(key)??`${fD[kind] ?? "Window"} ${key.split(".").at(-1)}`}
caption(text){this.#bc=bE(text);for(let view of this.views.values())view.named();this.#aE()}
show(board,f){let before=new Map(this.views);this.views.clear();let fI=Array.from(board.windows,([win,widgets])=>this.#S(win,widgets,before,f));for(let[key,view]of before)if(this.views.get(key)!==view)this.#q(view);ba(found("board"),this.views.size>0?fI:[this.#aB()]);this.#aE()}
#S(win,widgets,before,f){let cG=b("h2",{id:`window-${win}`,dir:"auto"}),aB=this.#bT.get(win)??b("section",{"aria-labelledby":cG.id},cG);this.#bT.set(win,aB);let views=Array.from(widgets,([wid,widget])=>this.#ek(win,wid,widget,before,f));ba(aB,[aB.firstChild,...views.map(({element})=>element)]);return aB}
#ek(win,wid,widget,before,f){let t=({kind,low,high})=>[kind,low,high].join(),key=`${win}.${wid}`,old=before.get(key),isKept=old!==undefined&&t(old.widget)===t(widget),view=isKept?old:new fC[widget.kind](this.#a,win,wid,widget);if(isKept)view.rebind(widget,f);this.views.set(key,view);return view}
#q(view){let{notices}=this.#a;for(let text of view.drafts)notices.add({words:view.name.textContent,text});notices.adopt(view.element);view.close()}
#aB(){return b("section",{},b("h2",{textContent:fE}),b("p",{textContent:fF}),b("pre",{textContent:fG}))}
#aE(){let cH=[...this.#a.board.windows.keys()];for(let win of cH)this.#bT.get(win).firstChild.textContent=this.captionOf(String(win));found("title").textContent=this.#bc.get(String(cH[0]))??"Board";document.title=found("title").textContent}}
let cI=256,fJ=8,cJ=64,cK=cI / D,fK=5000,fL=new Set([6,7,8,9,32]),isFull=fault=>fault===9||fault===32,fM=new Set([null,30,35,36,42]);async function bh(name){try{let cL=await fetch(new URL(name,location.href),{cache:"no-store"});return cL.ok?await cL.text():null}catch{return null}}
class fN{drafts=new cg(()=>this.#l());notices=new eI(()=>this.#l());takingBack=new eT(this);untaken=new eZ(this);keeping=new ex(this);isReadOnly=!1;#aF;#am;#f=[];#b=null;#A=null;#bU=new Map();#bV=!1;#bd=!1;#bW=!1;#J=new eJ();constructor(V){this.#aF=new fH(this,V);this.#am=new dC(this.views);let O=new URL("ws",location.href);O.protocol=O.protocol.replace("http","ws");this.link=new dz(O.href,(what,it)=>this[what](it));this.#el();eE(this,isTelling=>(this.#J.isTelling=isTelling));setInterval(()=>this.#bX(),fK)}
#el(){addEventListener("pagehide",()=>this.#bM());addEventListener("pageshow",a=>a.persisted&&this.link.comeBack());addEventListener("beforeunload",a=>this.#em()||this.keeping.isKeeping||a.preventDefault());addEventListener("online",()=>this.link.hurry(!0));document.addEventListener("visibilitychange",()=>(document.hidden?this.#en():this.link.hurry()));for(let fO of["keydown","pointerdown"])document.addEventListener(fO,()=>this.link.hurry());found("try-now").addEventListener("click",()=>this.link.hurry());found("notice-count").addEventListener("click",()=>this.notices.show())}
get views(){return this.#aF.views}
get board(){return this.link.site.board}
get editCount(){return this.link.site.made}
nameOf(view,name){return this.takingBack.nameOf(view,name)}
captionOf(key,kind){return this.#aF.captionOf(key,kind)}
ready(){let{site}=this.link,old=this.#b,isFirst=old===null,f=!isFirst&&site.site>old.site&&(this.#A.goesOn||bG(old,site)),goesOn=f&&old.stage==="open"&&!this.isReadOnly;this.#bW=!0;let taken=goesOn?(this.#A.taken??this.untaken.taken(old,site.board)):Infinity;if(!goesOn)this.#H(old);else{this.takingBack.lost();this.untaken.forget()}
this.#b=site;this.#bV=!1;this.#aF.show(this.board,f);this.#bW=!1;if(!isFirst)this.takingBack.joined(old.board,f,taken);this.#am.now();if(!goesOn)this.#f=this.untaken.settle(f);this.#aG();if(!this.isReadOnly)for(let element of this.#bU.values())this.notices.end(element);for(let view of this.views.values())view.sendDrafts();if(isFirst)this.keeping.open();else this.#eo();this.#J.announce("link","Connected");this.#bX();this.#be()}
made(it){this.takingBack.made(it)}
came(it){this.takingBack.came(it);for(let op of it.raw)this.views.get(`${op.win}.${op.wid}`).came(op,it.heard);this.takingBack.mend()}
changed(op){let view=this.views.get(`${op.win}.${op.wid}`);view.changed();this.#J.announce("changes",`Others changed ${view.name.textContent}`)}
heard(){this.takingBack.mend();this.#am.soon();this.#be();this.untaken.lookAgain()}
confirmed(){this.untaken.confirmed(this.link.confirmed);for(let view of this.views.values())view.confirmed(this.link.confirmed);this.#l()}
carried(){this.#J.announce("link","Connected");this.#bX();this.#l()}
cut(){this.#J.count(0);this.#J.announce("link",this.link.isOpen?"Offline. You can go on typing":"The connection is lost. This page joins again by itself");setTimeout(()=>this.#l(),this.link.grace);this.#l()}
ended(it){this.#A=it}
lost(fault){let fP=this.#b!==null&&!["lost","waiting","offline"].includes(document.body.dataset.stage);this.isReadOnly=isFull(fault);this.#bV=fault===30;if(!fM.has(fault))this.#bY(R(fault));if(!this.link.isOpen)this.#H(this.#b);this.#aG();if(fP)this.cut()}
#H(old){this.takingBack.lost();this.untaken.lose(old,this.#f);this.#f=[]}
edit(view,commands,how=null,job=null){if(!this.takesEdits)return null;let after=job?.after;try{let ops=this.link.edit(commands);this.takingBack.note(how);this.untaken.add({ops,took:this.takingBack.took,view,job,after});this.#l();return ops}catch(fault){if(!(fault instanceof aD)||!fL.has(fault.number))throw fault;this.#ep(fault.number,view,job);return null}}
#ep(fault,view,job){let text=job?.rest.map(G).join("")??"";if(text==="")this.#bY(R(fault),view);else this.notices.add({view,words:R(fault),text});if(isFull(fault))this.#cS()}
#cS(){this.isReadOnly=!0;this.#aG()}
#bY(words,view=null){if(!this.#bU.get(words)?.isConnected)this.#bU.set(words,this.notices.add({view,words}))}
isShort(job){return job.left<=cI&&!this.isBusyWith(job.view)&&this.#bf(cK)}
run(job){let A=[];while(!job.isDone){let ops=this.#aa(job);if(ops===null)return null;A.push(...ops)}
return A}
begin(job){if(job.isFirst)this.#f.unshift(job);else this.#f.push(job);this.#aG();this.#be()}
stop(job){if(!this.#f.includes(job))return;this.#f=this.#f.filter(it=>it!==job);job.end();this.#am.now();this.#aG()}
get takesEdits(){return this.link.isOpen&&!this.isReadOnly}
get isReady(){return this.takesEdits&&this.#bf(cK)}
isBusyWith(view){return this.#f.some(job=>job.view===view&&!job.isFirst)}
get isJoining(){return this.#bW||(this.#f[0]?.isFirst??!1)}
#bf(edits){return this.link.site.backlog+edits<=ag}
#aa(job){let commands=job.next(),ops=commands.length>0?this.edit(job.view,commands,job.how,job):[];if(ops!==null)job.made(ops);return ops}
#be(){if(this.#bd||this.#f.length===0||!this.link.isOpen)return;let end=performance.now()+fJ;while(this.#f.length>0&&this.#bf(cJ)&&performance.now()<end){let[job]=this.#f,ops=this.#aa(job);job.show();if(ops===null||job.isDone)this.stop(job)}
this.#am.soon();this.#l();this.#bd=this.#f.length>0&&this.#bf(cJ);if(this.#bd)aI(()=>this.#aR())}
#aR(){this.#bd=!1;this.#be()}
#em(){let fQ=!this.untaken.isPending&&this.#f.length===0&&this.untaken.waiting===0;return fQ&&this.drafts.count===0&&!this.notices.isOffering}
get texts(){let drafts=[...this.views.values()].flatMap(({key,drafts})=>drafts.map(text=>[key,text])),rests=this.#f.filter(({rest})=>rest.length>0).map(({view,rest})=>[view.key,rest.map(G).join("")]);return[...this.notices.offers,...[...drafts,...rests].map(([key,text])=>({key,words:bF,text}))]}
#en(){if(this.link.hasLeft)return;for(let view of this.views.values())view.hide();this.keeping.now()}
#bM(){let[job]=this.#f;if(this.isJoining){this.run(job);this.stop(job)}
this.keeping.now();this.link.leave()}
drawSoon(){this.#am.soon()}
say(about,words,view=null){view?.remark(words);this.#J.announce(about,words)}
#aG(){for(let view of this.views.values())view.setOpen(this.takesEdits);this.takingBack.tell();this.#l()}
#l(){this.#J.tell({...this.#eq,notices:this.notices.count});this.keeping.soon()}
get #eq(){let left=this.#f.reduce((bc,job)=>bc+job.left,0),{waiting}=this.untaken,edits=`${x(waiting, "edit")} wait${waiting === 1 ? "s" : ""}`,isKept=this.link.isKept,cM=`${isKept ? "Saving" : "Sending"} \u2026`;if(this.#bV)return{stage:"waiting",words:"64 people are here. You come in when one leaves"};if(!this.link.isOpen)return{stage:"lost",words:"Offline"};if(!this.link.isCarried)return{stage:"offline",words:this.#er(edits)};if(this.isJoining)return{stage:"joining",words:`Bringing in ${x(left, "character")} \u2026`};if(left>0)return{stage:"sending",words:`${x(left, "character")} to go`};if(waiting>0)return{stage:"sending",words:cM,slowly:`${cM} ${edits}`,since:this.untaken.oldest};if(this.isReadOnly)return{stage:"full",words:"Read only: the board is full"};return this.drafts.count>0?{stage:"draft",words:x(this.drafts.count,"draft")}:{stage:"open",words:isKept?"Saved":"Sent"}}
#er(edits){let{cutAt,grace}=this.link;if(Date.now()-cutAt>=grace)return `Offline since ${cutAt.toTimeString().slice(0, 5)}. What you type is kept here and goes to the board later`;return this.untaken.waiting>0?`Offline. ${edits} ${this.keeping.isRefused ? "in this tab" : "on this device"}`:"Offline"}
async #eo(){let text=await bh("captions");if(text!==null)this.#aF.caption(text)}
async #bX(){if(document.hidden||!this.link.isCarried)return;let[count,state]=(await bh("who"))?.split("\n")??[];this.#J.count(this.link.isCarried?Number.parseInt(count,10):0);if(state!=="full"||this.isReadOnly)return;this.#bY(R(32));this.#cS()}}
new fN((await bh("captions"))??"");</script>
</body>
</html>
"#;
